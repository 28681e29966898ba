//! A server over loopback, with its clients in the same process.

ghost use Rattle.std.specs.Prelude.{◌<◌};

use crate::of_rows::{bad_chunk, session};
use crate::talking::{connected, hears, is_at_end, says, talks};
use server::{ServeFault, Service, serve};
use std::alloc::Global;
use std::io::Read;
use std::net::{Net, SocketAddr, TcpListener, TcpStream};
use std::rt::Clock;
use std::sync::Wait;
use std::test::Fail;
use std::thread::{JoinHandle, Threads};
use std::time::Duration;
use std::{io, thread};

/// What the clients of a test do.
#[derive(Clone, Copy)]
enum Play {
    /// One client says all rows in pieces of so many bytes, or each in one piece at 0; another one a bad block.
    Session(usize),
    /// 64 clients are there at once, and one more comes. When one has left, another gets in.
    Crowd,
    /// A client closes in the middle of a block, one says bytes at random, and the next one is served.
    Broken,
    /// A client asks for more than fits between the two and reads nothing, and the next one is served.
    Silent,
    /// 64 clients are in the middle of a block when the server ends.
    Midway,
    /// An item is gone when its time is over.
    Dated,
    /// 60 clients set values of so many bytes, twice, each under a key of its own, and a new one is served.
    Large(usize),
    /// 64 clients leave while their requests are outstanding, and 64 others get in.
    Leaving,
}

/// What a client's thread leaves.
#[derive(Drop)]
struct Left {
    went_well: bool,
    open: Vec<TcpStream>,
}

/// A reader that is at its end when the thread of the clients is: so long the server serves.
#[derive(Drop)]
struct UntilLeft<'a, R: Threads> {
    rt: &'a R,
    clients: Option<JoinHandle<Left>>,
    left: Option<Left>,
}

impl<R: Threads> Read for UntilLeft<'_, R> {
    fn read(&mut self, _buffer: &mut [u8]) -> io::Result<usize> {
        if let Some(clients) = self.clients.take() {
            self.left = Some(clients.join(self.rt));
        }
        Ok(0)
    }
}

fn crowd<R: Net<Stream = TcpStream>>(
    rt: &R,
    alloc: Global,
    address: SocketAddr,
    open: &mut Vec<TcpStream>,
) -> Option<bool> {
    for _ in 0..64usize {
        let stream = connected(rt, address)?;
        if !talks(alloc, &stream, (b"set a 0 0 1\r\n5\r\n", b"STORED\r\n"), 0) {
            return None;
        }
        open.push(stream).ok()?;
    }
    let one_more = connected(rt, address)?;
    let mut is_right = hears(alloc, &one_more, b"SERVER_ERROR too many sessions\r\n")
        && is_at_end(&one_more);
    for stream in open.iter() {
        is_right = is_right && says(stream, b"get a\r\n", 0);
    }
    for stream in open.iter() {
        is_right = is_right && hears(alloc, stream, b"VALUE a 0 1\r\n5\r\nEND\r\n");
    }
    Some(is_right)
}

/// Whether a client that comes now is served. It is let in once the server has seen that another left.
fn gets_in<R: Net<Stream = TcpStream> + Clock>(rt: &R, alloc: Global, address: SocketAddr) -> bool {
    for _ in 0..200usize {
        let Some(stream) = connected(rt, address) else {
            return false;
        };
        if talks(
            alloc,
            &stream,
            (b"get a\r\n", b"VALUE a 0 1\r\n5\r\nEND\r\n"),
            0,
        ) {
            return true;
        }
        thread::sleep(rt, Duration::from_millis(50));
    }
    false
}

/// Bytes that look like nothing, the same at each run.
fn noise(alloc: Global) -> Option<Vec<u8>> {
    let mut bytes = Vec::new(alloc);
    let mut word = 7u32;
    for _ in 0..6000usize {
        word = word.wrapping_mul(1664525).wrapping_add(1013904223);
        bytes.push((word >> 24) as u8).ok()?;
    }
    Some(bytes)
}

fn broken<R: Net<Stream = TcpStream>>(rt: &R, alloc: Global, address: SocketAddr) -> Option<bool> {
    let first = connected(rt, address)?;
    let is_said = says(&first, b"set a 0 0 10\r\nabc", 0);
    drop(first);
    let second = connected(rt, address)?;
    let noise = noise(alloc)?;
    says(&second, noise.as_slice(), 0);
    drop(second);
    let third = connected(rt, address)?;
    Some(is_said && talks(alloc, &third, (b"get a\r\n", b"END\r\n"), 0))
}

/// A set of a block of so many bytes under this key.
fn large_set(alloc: Global, key: u8, length: usize) -> Option<Vec<u8>> {
    let line = format!(in alloc; "set large{key} 0 0 {length}\r\n").ok()?;
    let mut bytes = Vec::new(alloc);
    bytes.extend_from_slice(line.as_bytes()).ok()?;
    let whole = bytes.len().checked_add(length)?;
    bytes.resize(whole, b'x').ok()?;
    bytes.extend_from_slice(b"\r\n").ok()?;
    Some(bytes)
}

/// The silent client is still there when the server ends.
fn silent<R: Net<Stream = TcpStream>>(
    rt: &R,
    alloc: Global,
    address: SocketAddr,
    open: &mut Vec<TcpStream>,
) -> Option<bool> {
    let first = connected(rt, address)?;
    let block = large_set(alloc, 0, 100000)?;
    let is_stored = says(&first, block.as_slice(), 0) && hears(alloc, &first, b"STORED\r\n");
    for _ in 0..200usize {
        says(&first, b"get large0\r\n", 0);
    }
    open.push(first).ok()?;
    let second = connected(rt, address)?;
    let row: (&[u8], &[u8]) = (
        b"set a 0 0 1\r\n5\r\nget a\r\n",
        b"STORED\r\nVALUE a 0 1\r\n5\r\nEND\r\n",
    );
    Some(is_stored && talks(alloc, &second, row, 0))
}

fn midway<R: Net<Stream = TcpStream>>(
    rt: &R,
    alloc: Global,
    address: SocketAddr,
    open: &mut Vec<TcpStream>,
) -> Option<bool> {
    let mut is_right = true;
    for _ in 0..64usize {
        let stream = connected(rt, address)?;
        let row: (&[u8], &[u8]) = (b"set a 0 0 1\r\n5\r\nset b 0 0 10\r\nab", b"STORED\r\n");
        is_right = talks(alloc, &stream, row, 0) && is_right;
        open.push(stream).ok()?;
    }
    Some(is_right)
}

/// So many clients.
fn clients<R: Net<Stream = TcpStream>>(
    rt: &R,
    alloc: Global,
    address: SocketAddr,
    count: usize,
) -> Option<Vec<TcpStream>> {
    let mut clients = Vec::new(alloc);
    for _ in 0..count {
        clients.push(connected(rt, address)?).ok()?;
    }
    Some(clients)
}

/// Each client sets a large value under a key of its own: whether all was said.
fn all_set(alloc: Global, clients: &[TcpStream], first_key: u8, length: usize) -> bool {
    let mut is_said = true;
    for (at, client) in clients.iter().enumerate() {
        let key = first_key.wrapping_add((at % 100) as u8);
        is_said = is_said
            && match large_set(alloc, key, length) {
                Some(text) => says(client, text.as_slice(), 0),
                None => false,
            };
    }
    is_said
}

/// Whether each client hears this.
fn all_hear(alloc: Global, clients: &[TcpStream], expected: &[u8]) -> bool {
    clients.iter().all(|client| hears(alloc, client, expected))
}

fn large<R: Net<Stream = TcpStream>>(
    rt: &R,
    alloc: Global,
    address: SocketAddr,
    length: usize,
) -> Option<bool> {
    let clients = clients(rt, alloc, address, 60)?;
    let all = clients.as_slice();
    let first = all_set(alloc, all, 0, length) && all_hear(alloc, all, b"STORED\r\n");
    let second = all_set(alloc, all, 100, length) && all_hear(alloc, all, b"STORED\r\n");
    let fresh = connected(rt, address)?;
    Some(first && second && talks(alloc, &fresh, (b"get a\r\n", b"END\r\n"), 0))
}

/// Whether 64 clients that come now are served.
fn all_get_in<R: Net<Stream = TcpStream>>(
    rt: &R,
    alloc: Global,
    address: SocketAddr,
) -> Option<bool> {
    let clients = clients(rt, alloc, address, 64)?;
    let is_served = |client: &TcpStream| talks(alloc, client, (b"get a\r\n", b"END\r\n"), 0);
    Some(clients.iter().all(is_served))
}

/// Those who left have made room, though nobody heard their replies.
fn leaving<R: Net<Stream = TcpStream> + Clock>(
    rt: &R,
    alloc: Global,
    address: SocketAddr,
) -> Option<bool> {
    let first = clients(rt, alloc, address, 64)?;
    let is_said = all_set(alloc, first.as_slice(), 0, 100000);
    drop(first);
    for _ in 0..200usize {
        if all_get_in(rt, alloc, address)? {
            return Some(is_said);
        }
        thread::sleep(rt, Duration::from_millis(50));
    }
    Some(false)
}

/// One item has a second, the other a thousand; both are asked for after three.
fn dated<R: Net<Stream = TcpStream> + Clock>(
    rt: &R,
    alloc: Global,
    address: SocketAddr,
) -> Option<bool> {
    let stream = connected(rt, address)?;
    let sets: (&[u8], &[u8]) = (
        b"set short 0 1 1\r\n5\r\nset long 0 1000 1\r\n6\r\n",
        b"STORED\r\nSTORED\r\n",
    );
    let gets: (&[u8], &[u8]) = (b"get short long\r\n", b"VALUE long 0 1\r\n6\r\nEND\r\n");
    let is_stored = talks(alloc, &stream, sets, 0);
    thread::sleep(rt, Duration::from_millis(3000));
    Some(is_stored && talks(alloc, &stream, gets, 0))
}

fn act<R: Net<Stream = TcpStream> + Clock>(
    rt: &R,
    alloc: Global,
    address: SocketAddr,
    play: Play,
) -> Left {
    let mut open = Vec::new(alloc);
    let went = match play {
        Play::Session(piece) => match (connected(rt, address), connected(rt, address)) {
            (Some(first), Some(second)) => {
                Some(session(alloc, &first, piece) && bad_chunk(alloc, &second, piece))
            }
            _ => None,
        },
        Play::Crowd => {
            let went = crowd(rt, alloc, address, &mut open);
            open.truncate(63);
            Some(went == Some(true) && gets_in(rt, alloc, address))
        }
        Play::Broken => broken(rt, alloc, address),
        Play::Silent => silent(rt, alloc, address, &mut open),
        Play::Midway => midway(rt, alloc, address, &mut open),
        Play::Dated => dated(rt, alloc, address),
        Play::Large(length) => large(rt, alloc, address, length),
        Play::Leaving => leaving(rt, alloc, address),
    };
    Left {
        went_well: went == Some(true),
        open,
    }
}

/// Ends the server: whether it served, no leader was suspected and nothing rolled back.
fn was_quiet(ended: Result<Service, ServeFault>) -> bool {
    match ended {
        Ok(service) => {
            let incidents = service.incidents();
            service.end();
            incidents.suspicions == 0 && incidents.rollbacks == 0
        }
        Err(_) => false,
    }
}

/// Whether all went well with a server of this `u`, which was ended after the play. Nobody suspected a leader.
fn served<
    R: Net<Listener = TcpListener, Stream = TcpStream>
        + Threads
        + Wait
        + Clock
        + Clone
        + Send
        + Sync
        + Drop
        + 'static,
>(rt: &R, alloc: Global, u: u8, play: Play) -> bool
    requires { u < 4 }
{
    let Ok(listener) = TcpListener::bind(rt, "127.0.0.1:0") else {
        return false;
    };
    let Ok(address) = listener.local_addr() else {
        return false;
    };
    let Ok(runtime) = rt.clone() else {
        return false;
    };
    let Ok(clients) = thread::spawn(rt, move || act(&runtime, alloc, address, play)) else {
        return false;
    };
    let mut until = UntilLeft {
        rt,
        clients: Some(clients),
        left: None,
    };
    let is_quiet = was_quiet(serve(rt, alloc, listener, u, &mut until));
    let UntilLeft {
        rt: _,
        clients: _,
        left,
    } = until;
    match left {
        Some(left) => left.went_well && is_quiet,
        None => false,
    }
}

#[test]
fn rows_in_one_piece(rt: HostRuntime) -> Result<(), Fail> {
    assert!(rt; served(&rt, rt.alloc(), 0, Play::Session(0)));
    assert!(rt; served(&rt, rt.alloc(), 1, Play::Session(0)));
    Ok(())
}

#[test]
fn rows_byte_by_byte(rt: HostRuntime) -> Result<(), Fail> {
    assert!(rt; served(&rt, rt.alloc(), 0, Play::Session(1)));
    assert!(rt; served(&rt, rt.alloc(), 1, Play::Session(1)));
    Ok(())
}

#[test]
fn sixty_four_at_once_and_no_more(rt: HostRuntime) -> Result<(), Fail> {
    assert!(rt; served(&rt, rt.alloc(), 0, Play::Crowd));
    assert!(rt; served(&rt, rt.alloc(), 1, Play::Crowd));
    Ok(())
}

#[test]
fn after_broken_clients_the_next_is_served(rt: HostRuntime) -> Result<(), Fail> {
    assert!(rt; served(&rt, rt.alloc(), 0, Play::Broken));
    assert!(rt; served(&rt, rt.alloc(), 1, Play::Broken));
    Ok(())
}

#[test]
fn beside_a_client_that_never_reads_the_next_is_served(rt: HostRuntime) -> Result<(), Fail> {
    assert!(rt; served(&rt, rt.alloc(), 0, Play::Silent));
    assert!(rt; served(&rt, rt.alloc(), 1, Play::Silent));
    Ok(())
}

#[test]
fn it_ends_with_clients_midway(rt: HostRuntime) -> Result<(), Fail> {
    assert!(rt; served(&rt, rt.alloc(), 0, Play::Midway));
    assert!(rt; served(&rt, rt.alloc(), 1, Play::Midway));
    Ok(())
}

#[test]
fn an_item_is_gone_after_its_time(rt: HostRuntime) -> Result<(), Fail> {
    assert!(rt; served(&rt, rt.alloc(), 0, Play::Dated));
    assert!(rt; served(&rt, rt.alloc(), 1, Play::Dated));
    Ok(())
}

#[test]
fn large_values_of_many_clients_are_stored(rt: HostRuntime) -> Result<(), Fail> {
    assert!(rt; served(&rt, rt.alloc(), 0, Play::Large(1048576)));
    assert!(rt; served(&rt, rt.alloc(), 1, Play::Large(1048576)));
    Ok(())
}

#[test]
fn large_values_are_stored_on_many_replicas(rt: HostRuntime) -> Result<(), Fail> {
    assert!(rt; served(&rt, rt.alloc(), 2, Play::Large(200000)));
    assert!(rt; served(&rt, rt.alloc(), 3, Play::Large(100000)));
    Ok(())
}

#[test]
fn who_leaves_makes_room(rt: HostRuntime) -> Result<(), Fail> {
    assert!(rt; served(&rt, rt.alloc(), 0, Play::Leaving));
    assert!(rt; served(&rt, rt.alloc(), 1, Play::Leaving));
    Ok(())
}
