//! The event loop before a service that keeps items in a map and answers at once: `loop_costs --port P`. It
//! knows `get` and `set`. What it costs is what the event loop costs. More than 64 connections are taken if
//! `--connections N` follows, and without a port it prints its usage and ends.
#![tactic(auto)]

mod store;
mod stub;

use crate::stub::Stub;
use command_line::words_of;
use event_loop::{Admission, Listener, read_out, serve};
use mio::net::TcpListener;
use std::io;
use std::net::{Ipv4Addr, SocketAddr, SocketAddrV4};

fn port_of(words: &[String]) -> Option<u16> {
    words.get(2)?.as_str().parse::<u16>().ok()
}

fn most_of(words: &[String]) -> usize {
    if words.len() < 6 { 64 } else { 8192 }
}

fn main(rt: HostRuntime) -> io::Result<()> {
    let words = match words_of(&rt) {
        Ok(words) => words,
        Err(_) => return Ok(()),
    };
    let alloc = rt.alloc();
    let port = match port_of(words.as_slice()) {
        Some(port) => port,
        None => return println!(rt; "usage: loop_costs --port P [--connections 8192]"),
    };
    let address = SocketAddr::V4(SocketAddrV4::new(Ipv4Addr::LOCALHOST, port));
    let listener = TcpListener::bind(&rt, address)?;
    let address = listener.local_addr()?;
    println!(rt; "listening {address}")?;
    let admission = Admission {
        most: most_of(words.as_slice()),
        refusal: b"SERVER_ERROR too many sessions\r\n",
        idle_seconds: 0,
        first_number: 0,
    };
    let mut listeners = Vec::with_capacity(alloc, 1)?;
    listeners.push(Listener::Tcp(listener))?;
    let stub = Stub::new(alloc);
    let (stub, served) = serve(&rt, alloc, listeners, admission, stub, |_| {
        read_out(&mut rt.stdin());
    });
    drop(stub);
    match served {
        Ok(()) => Ok(()),
        Err(refused) => println!(rt; "{refused:?}"),
    }
}
