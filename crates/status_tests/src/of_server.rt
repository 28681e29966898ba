//! The status port over loopback, with its clients in the same thread.

use crate::samples::{seen_with, some_figures};
use mio::net::TcpListener;
use status::Seen;
use status_server::{MOST_PEERS, StatusServer, Watch};
use std::alloc::Global;
use std::io::{Read, Write};
use std::net::{Ipv4Addr, Net, SocketAddr, SocketAddrV4, TcpStream};
use std::rt::Clock;
use std::sync::{Mutex, MutexGuard, Wait};
use std::test::Fail;
use std::thread;
use std::time::Duration;

/// It always has the same figures.
#[derive(Drop)]
struct Same {
    seen: Mutex<Seen>,
}

impl Watch for Same {
    fn seen<R: Wait>(&self, rt: &R) -> MutexGuard<'_, Seen> {
        self.seen.lock(rt)
    }
}

/// One that has some figures.
fn with_some_figures(alloc: Global) -> Same {
    Same {
        seen: Mutex::new(seen_with(alloc, some_figures())),
    }
}

/// A server on a port of its own.
fn started<R: Net>(rt: &R, alloc: Global) -> Option<(StatusServer, SocketAddr)> {
    let any = SocketAddr::V4(SocketAddrV4::new(Ipv4Addr::LOCALHOST, 0));
    let listener = TcpListener::bind(rt, any).ok()?;
    let address = listener.local_addr().ok()?;
    let server = StatusServer::new(rt, alloc, listener).ok()?;
    Some((server, address))
}

/// So many passes: whether all went well.
fn passes<R: Wait + Clock + AllocGlobal>(rt: &R, server: &mut StatusServer, count: usize) -> bool {
    let same = with_some_figures(rt.alloc());
    for _ in 0..count {
        if server
            .pass(rt, &same, Some(Duration::from_millis(20)))
            .is_err()
        {
            return false;
        }
    }
    true
}

fn says(stream: &TcpStream, text: &[u8]) -> bool {
    let mut output = stream;
    output.write_all(text).is_ok()
}

/// Whether the next bytes are these.
fn hears(stream: &TcpStream, expected: &[u8]) -> bool {
    let mut got = [0u8; 12];
    let mut input = stream;
    input.read_exact(&mut got).is_ok() && got.as_slice() == expected
}

/// Whether a connection that says this is given a response of this status.
fn is_given<R: Net<Stream = TcpStream> + Wait + Clock + AllocGlobal>(
    rt: &R,
    server: &mut StatusServer,
    address: SocketAddr,
    parts: (&[u8], &[u8]),
    status: &[u8],
) -> bool {
    let Ok(stream) = TcpStream::connect(rt, address) else {
        return false;
    };
    says(&stream, parts.0)
        && passes(rt, server, 2)
        && says(&stream, parts.1)
        && passes(rt, server, 3)
        && hears(&stream, status)
}

fn answers<R: Net<Stream = TcpStream> + Wait + Clock + AllocGlobal>(rt: &R, alloc: Global) -> bool {
    let Some((mut server, address)) = started(rt, alloc) else {
        return false;
    };
    let whole: (&[u8], &[u8]) = (b"", b"GET /metrics HTTP/1.1\r\n\r\n");
    let halves: (&[u8], &[u8]) = (b"GET /data", b".json HTTP/1.1\r\n\r\n");
    let other: (&[u8], &[u8]) = (b"", b"stats\r\n");
    is_given(rt, &mut server, address, whole, b"HTTP/1.1 200")
        && is_given(rt, &mut server, address, halves, b"HTTP/1.1 200")
        && is_given(rt, &mut server, address, other, b"HTTP/1.1 400")
}

/// Silent clients come, more than are let in, and one that asks.
fn answers_in_a_crowd<R: Net<Stream = TcpStream> + Wait + Clock + AllocGlobal>(
    rt: &R,
    alloc: Global,
) -> bool {
    let Some((mut server, address)) = started(rt, alloc) else {
        return false;
    };
    let mut silent = Vec::new(alloc);
    for _ in 0..50usize {
        let Ok(stream) = TcpStream::connect(rt, address) else {
            return false;
        };
        if silent.push(stream).is_err() {
            return false;
        }
    }
    let whole: (&[u8], &[u8]) = (b"GET / HTTP/1.1\r\n", b"\r\n");
    passes(rt, &mut server, 6)
        && server.peer_count() == MOST_PEERS
        && is_given(rt, &mut server, address, whole, b"HTTP/1.1 200")
        && server.peer_count() <= MOST_PEERS
}

/// A client that says half of a request is closed after five seconds.
fn closes_the_slow<R: Net<Stream = TcpStream> + Wait + Clock + AllocGlobal>(
    rt: &R,
    alloc: Global,
) -> bool {
    let Some((mut server, address)) = started(rt, alloc) else {
        return false;
    };
    let Ok(stream) = TcpStream::connect(rt, address) else {
        return false;
    };
    let is_there = says(&stream, b"GET / HTTP/1.1\r\n")
        && passes(rt, &mut server, 3)
        && server.peer_count() == 1;
    thread::sleep(rt, Duration::from_millis(5100));
    is_there && passes(rt, &mut server, 2) && server.peer_count() == 0
}

#[test]
fn whole_and_halved_requests(rt: HostRuntime) -> Result<(), Fail> {
    assert!(rt; answers(&rt, rt.alloc()));
    Ok(())
}

#[test]
fn beside_fifty_silent_clients(rt: HostRuntime) -> Result<(), Fail> {
    assert!(rt; answers_in_a_crowd(&rt, rt.alloc()));
    Ok(())
}

#[test]
fn a_slow_client_is_closed(rt: HostRuntime) -> Result<(), Fail> {
    assert!(rt; closes_the_slow(&rt, rt.alloc()));
    Ok(())
}
