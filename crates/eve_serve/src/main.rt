//! A memcached server on replicas: `eve-serve --port P --u U`.
//!
//! It listens on 127.0.0.1, prints its address, and ends with status 0 at the end of its standard input.
//! Status 1: memory ran out before it served; 2: other words; 3: it cannot listen or cannot start. A line on
//! standard error says which.
#![tactic(auto)]

mod given;

use crate::given::read_words;
use command_line::{WordsFault, words_of};
use server::{Incidents, ServeFault, Service, serve};
use service_laws::{replicas_agree_and_keep, service_is_linearizable};
use std::io;
use std::net::{Ipv4Addr, SocketAddr, SocketAddrV4, TcpListener};
use std::process::ExitCode;

const REFUSED: u8 = 1;

const USAGE: u8 = 2;

const CANNOT: u8 = 3;

fn fail<T: Drop>(told: io::Result<T>, status: u8) -> ExitCode {
    match told {
        Ok(_) => ExitCode::from(status),
        Err(_) => ExitCode::from(CANNOT),
    }
}

/// A listener on the port of this machine's own address, whose address is printed.
fn listen(rt: &HostRuntime, port: u16) -> Result<TcpListener, ExitCode> {
    let address = SocketAddr::V4(SocketAddrV4::new(Ipv4Addr::LOCALHOST, port));
    let Ok(listener) = TcpListener::bind(rt, address) else {
        return Err(fail(eprintln!(rt; "cannot listen"), CANNOT));
    };
    let Ok(address) = listener.local_addr() else {
        return Err(fail(eprintln!(rt; "cannot listen"), CANNOT));
    };
    if println!(rt; "listening {address}").is_err() {
        return Err(ExitCode::from(CANNOT));
    }
    Ok(listener)
}

/// A line on standard error if a leader was suspected or a batch rolled back.
fn report(rt: &HostRuntime, incidents: Incidents) -> io::Result<()> {
    let Incidents {
        suspicions,
        rollbacks,
    } = incidents;
    if suspicions == 0 && rollbacks == 0 {
        return Ok(());
    }
    eprintln!(rt; "suspected {suspicions} times, rolled back {rollbacks} times")
}

/// Ends the service that has served: what it has come through. The history of its connections is linearizable, and its
/// replicas agree and keep what they decided. Two laws say so, which do nothing.
fn end(service: Service) -> Incidents {
    service_is_linearizable(&service);
    replicas_agree_and_keep(&service);
    let incidents = service.incidents();
    service.end();
    incidents
}

/// What the program has served ends with this status.
fn ended(rt: &HostRuntime, served: Result<Service, ServeFault>) -> ExitCode {
    match served {
        Ok(service) => {
            let _ = report(rt, end(service));
            ExitCode::SUCCESS
        }
        Err(ServeFault::Own(fault)) => fail(eprintln!(rt; "refused: {fault}"), REFUSED),
        Err(ServeFault::Start) => fail(eprintln!(rt; "cannot start"), CANNOT),
    }
}

fn main(rt: HostRuntime) -> ExitCode {
    let words = match words_of(&rt) {
        Ok(words) => read_words(rt.alloc(), words.as_slice()),
        Err(fault) => Err(fault),
    };
    match words {
        Ok(words) => match listen(&rt, words.port) {
            Ok(listener) => {
                let served = serve(&rt, rt.alloc(), listener, words.u, &mut rt.stdin());
                ended(&rt, served)
            }
            Err(status) => status,
        },
        Err(WordsFault::NoMemory) => fail(eprintln!(rt; "refused: 1 NoMemory"), REFUSED),
        Err(WordsFault::Usage) => fail(eprintln!(rt; "usage: eve-serve --port P --u U"), USAGE),
    }
}
