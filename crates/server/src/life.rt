//! A server, from its start to its end.

ghost use Rattle.std.specs.Prelude.{◌<◌};

use crate::answering::Answering;
use crate::durable::DurableService;
use crate::fault::ServeFault;
use crate::leading::find_leader;
use crate::save::{NoFolder, Save};
use crate::watcher::Watcher;
use event_loop::{Admission, Listener as LoopListener, Refused, Watch, read_out};
use mio::net::{TcpListener as MioTcpListener, UnixListener as MioUnixListener};
use service::{Config, Dialect, Fault, Service, ServiceRecord};
use std::alloc::Global;
use std::io::Read;
use std::net::{Net, TcpListener, TcpStream};
use std::os::unix::net::UnixListener;
use std::rt::Clock;
use std::sync::Wait;
use std::thread::Threads;

/// So many connections are served at once by `serve`.
pub const MOST_CONNECTIONS: usize = 64;

/// So many client proxies ask the replicas. A batch has at most one request of each.
const PROXIES: u16 = 64;

/// What a connection is given for which `serve` has no room.
const TOO_MANY: &[u8] = b"SERVER_ERROR too many sessions\r\n";

// The event loop tells of written bytes once so many were said. A connection that has as many asks nothing until then.

/// Where clients come.
#[derive(Drop)]
pub enum Listener {
    /// At an address of the network.
    Tcp(TcpListener),
    /// At a Unix socket.
    Unix(UnixListener),
}

/// How a server is to serve.
#[derive(Clone, Copy)]
pub struct Options {
    /// So many connections are served at once.
    pub connections: usize,
    /// What any other one is given before it is closed.
    pub refusal: &'static [u8],
    /// A connection on which nothing happens for so many seconds is closed. 0: none is.
    pub idle_seconds: u32,
    /// There are `2u + 1` executors and `2u + 1` verifiers.
    pub u: u8,
    /// In which grammar the bytes of connections are read.
    pub dialect: Dialect,
    /// While the items have more bytes than these, with their keys, storage commands of memcached's dialect are
    /// refused. 0: there is no limit.
    pub max_bytes: u64,
    ghost few: { u < 4 },
}

/// The grammar of a server with these options.
fn dialect_of(options: &Options) -> Dialect {
    match options.dialect {
        Dialect::Memcached if options.max_bytes != 0 => Dialect::Limited,
        other => other,
    }
}

/// A service of which nothing was asked before.
fn first_service(alloc: Global, options: &Options) -> Result<Service, ServeFault> {
    let config = Config::new(options.u, PROXIES)?;
    Ok(Service::open(alloc, &config, dialect_of(options))?)
}

/// The service that goes on from this record. Its replicas are opened, and have a leader.
fn later_service<R: Threads + Wait + Clock + Sync>(
    rt: &R,
    alloc: Global,
    options: &Options,
    found: ServiceRecord,
) -> Result<Service, ServeFault> {
    let number = found.next();
    let mut service = Service::reopen(alloc, found, dialect_of(options))?;
    find_leader(rt, alloc, &mut service, number);
    Ok(service)
}

/// The service, for an event loop of at most so many sockets at once.
fn answering_of(alloc: Global, service: Service, most: usize) -> Result<Answering, ServeFault> {
    match Answering::new(alloc, service, most) {
        Ok(answering) => Ok(answering),
        Err(service) => {
            service.end();
            Err(ServeFault::Own(Fault::NoMemory))
        }
    }
}

/// The service over its replicas, for an event loop of at most so many sockets at once. It goes on from what was found,
/// if something was.
fn open<R: Threads + Wait + Clock + Sync>(
    rt: &R,
    alloc: Global,
    options: Options,
    found: Option<ServiceRecord>,
    most: usize,
) -> Result<Answering, ServeFault> {
    let mut service = match found {
        Some(found) => later_service(rt, alloc, &options, found)?,
        None => first_service(alloc, &options)?,
    };
    service.set_limit(options.max_bytes);
    answering_of(alloc, service, most)
}

/// The number of the first connection that the event loop accepts. The one before it has found a leader.
fn first_number(found: &Option<ServiceRecord>) -> u64 {
    match found {
        Some(found) => found.next().saturating_add(1),
        None => 0,
    }
}

/// Why the event loop did not begin.
fn not_started(refused: Refused) -> ServeFault {
    match refused {
        Refused::NoMemory => ServeFault::Own(Fault::NoMemory),
        Refused::Start => ServeFault::Start,
    }
}

/// The listener, such that none of its calls waits, or none if the system does not take that.
fn waiting_for_none(listener: Listener) -> Option<LoopListener> {
    match listener {
        Listener::Tcp(listener) => {
            listener.set_nonblocking(true).ok()?;
            Some(LoopListener::Tcp(MioTcpListener::from_std(listener)))
        }
        Listener::Unix(listener) => {
            listener.set_nonblocking(true).ok()?;
            Some(LoopListener::Unix(MioUnixListener::from_std(listener)))
        }
    }
}

/// The listeners, such that none of their calls waits.
fn all_waiting_for_none(
    alloc: Global,
    listeners: Vec<Listener>,
) -> Result<Vec<LoopListener>, ServeFault> {
    let mut all = Vec::with_capacity(alloc, listeners.len())?;
    for listener in listeners {
        let Some(listener) = waiting_for_none(listener) else {
            return Err(ServeFault::Start);
        };
        all.push(listener)?;
    }
    Ok(all)
}

/// Which connections are let in with these options, after what was found.
fn admission_of(options: &Options, found: &Option<ServiceRecord>) -> Admission {
    Admission {
        most: options.connections,
        refusal: options.refusal,
        idle_seconds: options.idle_seconds,
        first_number: first_number(found),
    }
}

/// What has served ends: the service and where it was saved, or why it did not begin.
fn ended<S: Save + Drop>(
    durable: DurableService<S>,
    served: Result<(), Refused>,
) -> Result<(Service, S), ServeFault> {
    let (service, saver) = durable.into_parts();
    match served {
        Ok(()) => Ok((service, saver)),
        Err(refused) => {
            service.end();
            drop(saver);
            Err(not_started(refused))
        }
    }
}

/// Serves until `beside` returns.
fn serve_all<
    R: Net<Listener = TcpListener, Stream = TcpStream> + Threads + Wait + Clock + Sync,
    S: Save + Drop + Send,
    F: FnOnce(&Watch<'_, DurableService<S>>),
>(
    rt: &R,
    alloc: Global,
    listeners: Vec<Listener>,
    options: Options,
    saver: S,
    found: Option<ServiceRecord>,
    beside: F,
) -> Result<(Service, S), ServeFault>
    requires { F.IsAlwaysCallable beside }
{
    let listeners = all_waiting_for_none(alloc, listeners)?;
    let admission = admission_of(&options, &found);
    let answering = open(rt, alloc, options, found, admission.most_sockets())?;
    let durable = DurableService::new(alloc, answering, saver);
    let (durable, served) = event_loop::serve(rt, alloc, listeners, admission, durable, beside);
    ended(durable, served)
}

/// Serves the profile of memcached's text protocol on the listener, kept on `2u + 1` executors and `2u + 1` verifiers in
/// this process, to 64 connections at once. It returns after the end or a fault of `until`: no more connections are
/// taken then, those that are here are closed, and no thread is left. The service comes back, for whoever asks what it
/// came through or what its laws say; its `end` ends it. It starts threads and waits for them, so no clause says what
/// it does: the parts that its loops call have the contracts.
///
/// `Own` if memory ran out before it began to serve, `Start` if the system gave no thread or descriptor, or
/// the listener cannot be used. If memory runs out later, a connection is closed or a node stops, and the
/// others go on.
pub fn serve<
    R: Net<Listener = TcpListener, Stream = TcpStream> + Threads + Wait + Clock + Sync,
    I: Read,
>(rt: &R, alloc: Global, listener: TcpListener, u: u8, until: &mut I) -> Result<Service, ServeFault>
    requires { u < 4 }
{
    let mut listeners = Vec::with_capacity(alloc, 1)?;
    listeners.push(Listener::Tcp(listener))?;
    let options = Options {
        connections: MOST_CONNECTIONS,
        refusal: TOO_MANY,
        idle_seconds: 0,
        u,
        dialect: Dialect::Profile,
        max_bytes: 0,
    };
    let (service, _) = serve_all(rt, alloc, listeners, options, NoFolder, None, |_| {
        read_out(until);
    })?;
    Ok(service)
}

/// Serves as `serve` does, but on all listeners, as the options say, and until `beside` returns. It is called on this
/// thread once clients are served, and sees what the server counts. As of `serve`, no clause says what it does.
///
/// If a record was `found`, it goes on from that: the service is that of a process that begins with it, of as many
/// replicas as it has. What is said to a connection leaves once the saver has saved a record of that moment or of a later
/// one. After a save that failed nothing leaves and nothing more is carried out before one succeeds; it is tried again at
/// each tick. The saver comes back with the service.
pub fn serve_beside<
    R: Net<Listener = TcpListener, Stream = TcpStream> + Threads + Wait + Clock + Sync,
    S: Save + Drop + Send,
    F: FnOnce(&Watcher<'_, S>),
>(
    rt: &R,
    alloc: Global,
    listeners: Vec<Listener>,
    options: Options,
    saver: S,
    found: Option<ServiceRecord>,
    beside: F,
) -> Result<(Service, S), ServeFault>
    requires { F.IsAlwaysCallable beside }
{
    serve_all(rt, alloc, listeners, options, saver, found, |watch| {
        beside(&Watcher::new(*watch));
    })
}
