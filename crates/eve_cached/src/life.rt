//! The daemon, from its listeners to its end.

ghost use Rattle.std.specs.Prelude.{◌<◌};

use crate::showing::{Shown, show};
use crate::watching::{Known, connections_of, watch};
use crate::{CANNOT, DISK_FAILED, REFUSED};
use daemon::{
    Listen, NO_TARGET, Settings, Stamped, tell_begun, tell_listening, tell_start, tell_status,
};
use data_folders::FolderCounts;
use libc::net::{SO_KEEPALIVE, SOL_SOCKET, setsockopt};
use log::{error, warn};
use metrics::Folders;
use mio::net::TcpListener as MioTcpListener;
use server::{
    Listener, Options, Save, SaveFault, ServeFault, Service, ServiceRecord, Watcher, serve_beside,
};
use service_laws::{replicas_agree_and_keep, service_goes_on, service_is_linearizable};
use std::alloc::Global;
use std::net::{Net, SocketAddr, TcpListener, TcpStream};
use std::os::fd::AsRawFd;
use std::os::unix::fs::FileTypeExt;
use std::os::unix::net::{UnixListener, UnixStream};
use std::rt::{Clock, Files};
use std::sync::{Arc, Wait};
use std::thread::Threads;
use std::{fs, io, thread};

/// What a connection is given for which there is no room.
const TOO_MANY: &[u8] = b"SERVER_ERROR too many open connections\r\n";

/// The listeners of a daemon.
#[derive(Drop)]
struct Ports {
    clients: Vec<Listener>,
    /// The address of each of them. None: it is a Unix socket, or the system does not tell.
    addresses: Vec<Option<SocketAddr>>,
    status: Option<TcpListener>,
}

/// A listener at the address. If there is none, the log tells why. As many connections wait to be accepted as the system
/// lets wait: of std's own listeners 128 do.
fn bound<R: Net<Listener = TcpListener, Stream = TcpStream> + Clock + Eprint>(
    rt: &R,
    address: SocketAddr,
) -> Result<TcpListener, u8> {
    match MioTcpListener::bind(rt, address) {
        Ok(listener) => Ok(TcpListener::from(listener)),
        Err(fault) => {
            error!(Stamped(rt); target: NO_TARGET, "cannot listen on {address}: {fault}");
            Err(CANNOT)
        }
    }
}

/// Has the system look now and then whether the client of a silent connection is still there: an accepted socket has this
/// option if its listener has it. Whether the system took it.
fn keep_alive(listener: &TcpListener) -> bool {
    // The option is a C `int`, whose bytes these are.
    let mut value = [0u8; 16];
    value[0] = 1;
    unsafe { setsockopt(listener.as_raw_fd(), SOL_SOCKET, SO_KEEPALIVE, &value, 4) == 0 }
}

/// A listener at the Unix socket. A socket that a process has left behind is removed.
fn bound_socket<R: Net + Files>(rt: &R, path: &str) -> io::Result<UnixListener> {
    if let Ok(found) = fs::symlink_metadata(rt, path) {
        if found.file_type().is_socket() && UnixStream::connect(rt, path).is_err() {
            fs::remove_file(rt, path)?;
        }
    }
    UnixListener::bind(rt, path)
}

/// Whether a file of this name is there that is no socket.
fn is_other_file<R: Files>(rt: &R, path: &str) -> bool {
    match fs::symlink_metadata(rt, path) {
        Ok(found) => !found.file_type().is_socket(),
        Err(_) => false,
    }
}

/// A listener for clients at this address. If there is none, the log tells why.
fn listener<R: Net<Listener = TcpListener, Stream = TcpStream> + Clock + Files + Eprint>(
    rt: &R,
    listen: &Listen,
) -> Result<Listener, u8> {
    match listen {
        Listen::Tcp(address) => {
            let listener = bound(rt, *address)?;
            if !keep_alive(&listener) {
                warn!(Stamped(rt); target: NO_TARGET, "clients that vanish are not noticed: no keepalive on {address}");
            }
            Ok(Listener::Tcp(listener))
        }
        Listen::Unix(path) => match bound_socket(rt, path.as_str()) {
            Ok(listener) => Ok(Listener::Unix(listener)),
            Err(_) if is_other_file(rt, path.as_str()) => {
                error!(Stamped(rt); target: NO_TARGET, "cannot listen on unix:{path}: a file is there that is no socket");
                Err(CANNOT)
            }
            Err(fault) => {
                error!(Stamped(rt); target: NO_TARGET, "cannot listen on unix:{path}: {fault}");
                Err(CANNOT)
            }
        },
    }
}

/// A listener at each address.
fn listeners<R: Net<Listener = TcpListener, Stream = TcpStream> + Clock + Files + Eprint>(
    rt: &R,
    alloc: Global,
    addresses: &[Listen],
) -> Result<Vec<Listener>, u8> {
    let mut all = Vec::new(alloc);
    for address in addresses {
        if all.push(listener(rt, address)?).is_err() {
            return Err(REFUSED);
        }
    }
    Ok(all)
}

/// Where the listener is, if it is one of the network.
fn address_of(listener: &Listener) -> Option<SocketAddr> {
    match listener {
        Listener::Tcp(listener) => listener.local_addr().ok(),
        Listener::Unix(_) => None,
    }
}

/// Where each listener is. The system has chosen the port if the settings name none.
fn addresses_of(alloc: Global, listeners: &[Listener]) -> Result<Vec<Option<SocketAddr>>, u8> {
    let mut all = Vec::new(alloc);
    for listener in listeners {
        if all.push(address_of(listener)).is_err() {
            return Err(REFUSED);
        }
    }
    Ok(all)
}

/// Tells where clients are served. An address that the system does not tell is that of the settings.
fn tell_served<R: Clock + Eprint>(rt: &R, listens: &[Listen], addresses: &[Option<SocketAddr>]) {
    for (listen, address) in listens.iter().zip(addresses) {
        match address {
            Some(address) => tell_listening(&Stamped(rt), &Listen::Tcp(*address)),
            None => tell_listening(&Stamped(rt), listen),
        }
    }
}

/// A listener for the figures. The log tells where.
fn status_port<R: Net<Listener = TcpListener, Stream = TcpStream> + Clock + Eprint>(
    rt: &R,
    address: SocketAddr,
) -> Result<TcpListener, u8> {
    let listener = bound(rt, address)?;
    tell_status(&Stamped(rt), listener.local_addr().unwrap_or(address));
    Ok(listener)
}

/// The listeners that the settings ask for.
fn open_ports<R: Net<Listener = TcpListener, Stream = TcpStream> + Clock + Files + Eprint>(
    rt: &R,
    alloc: Global,
    settings: &Settings,
) -> Result<Ports, u8> {
    let status = match settings.status {
        Some(address) => Some(status_port(rt, address)?),
        None => None,
    };
    let clients = listeners(rt, alloc, settings.listen.as_slice())?;
    let addresses = addresses_of(alloc, clients.as_slice())?;
    Ok(Ports {
        clients,
        addresses,
        status,
    })
}

/// Shows the figures, if it has a listener for that, and tells what happens, until the server ends by itself or
/// nothing can be saved any more.
fn attend<
    R: Net<Listener = TcpListener, Stream = TcpStream>
        + Threads
        + Wait
        + Clock
        + Files
        + Eprint
        + AllocGlobal
        + Sync,
    S: Save,
>(rt: &R, watcher: &Watcher<'_, S>, status: Option<TcpListener>, known: Known<'_>) {
    let first = known.look(rt, watcher, &Folders::NONE);
    if known.has_found() {
        tell_begun(&Stamped(rt), Some(first.figures.memory.items));
    }
    let now = Shown::new(rt.alloc(), first.figures, first.folders);
    let shown = &now;
    thread::scope(thread::scope_env(), rt, |scope| {
        if let Some(listener) = status {
            let of_status = move || {
                if let Err(fault) = show(rt, rt.alloc(), shown, listener) {
                    warn!(Stamped(rt); target: NO_TARGET, "no status port: {fault}");
                }
            };
            if scope.spawn(of_status).is_err() {
                warn!(Stamped(rt); target: NO_TARGET, "no thread for the status port");
            }
        }
        watch(rt, watcher, shown, known);
        shown.end();
    });
}

/// Ends the service that has served. The history of its connections is linearizable, also together with those of the
/// processes before it, if it goes on from what they saved. Its replicas agree and keep what they decided. Three laws say
/// so, which do nothing.
fn end(service: Service) {
    service_is_linearizable(&service);
    service_goes_on(&service);
    replicas_agree_and_keep(&service);
    service.end();
}

/// The program's status after it has served, which the log tells.
fn ended<R: Clock + Eprint, S: Save + Drop>(rt: &R, service: Service, saver: S) -> u8 {
    end(service);
    if saver.fault() == Some(SaveFault::Disk) {
        error!(Stamped(rt); target: NO_TARGET, "the disk failed: what was not saved was not answered");
        DISK_FAILED
    } else {
        error!(Stamped(rt); target: NO_TARGET, "the system no longer lets it wait on its sockets");
        CANNOT
    }
}

/// The program's status if it did not begin to serve, which the log tells.
fn refused<R: Clock + Eprint>(rt: &R, fault: ServeFault) -> u8 {
    match fault {
        ServeFault::Own(fault) => {
            error!(Stamped(rt); target: NO_TARGET, "cannot start: {fault}");
            REFUSED
        }
        ServeFault::Start => {
            error!(Stamped(rt); target: NO_TARGET, "cannot start");
            CANNOT
        }
    }
}

/// How the settings have it serve, with so many connections at once.
fn options_of(settings: &Settings, connections: u16) -> Options {
    Options {
        connections: usize::from(connections),
        refusal: TOO_MANY,
        idle_seconds: settings.idle,
        u: settings.u,
        dialect: settings.dialect,
        max_bytes: settings.max_bytes,
    }
}

/// Tells what runs, as it begins, and whether it begins with nothing although it saves. How many connections it can
/// serve at once.
fn tell_first<R: Clock + Files + Eprint + AllocGlobal>(
    rt: &R,
    settings: &Settings,
    is_found: bool,
) -> u16 {
    tell_start(&Stamped(rt), settings);
    if settings.data.is_some() && !is_found {
        tell_begun(&Stamped(rt), None);
    }
    connections_of(rt, settings)
}

/// Runs a daemon that saves what it answers, and goes on from what was found. It shows what is counted of its folders, and
/// tells where it listens once clients are served. The status of the program if it ends by itself.
pub fn run<
    R: Net<Listener = TcpListener, Stream = TcpStream>
        + Threads
        + Wait
        + Clock
        + Files
        + Eprint
        + AllocGlobal
        + Sync,
    S: Save + Drop + Send,
>(
    rt: &R,
    settings: Settings,
    saver: S,
    found: Option<ServiceRecord>,
    counts: Arc<FolderCounts>,
) -> u8 {
    let is_found = found.is_some();
    let connections = tell_first(rt, &settings, is_found);
    let options = options_of(&settings, connections);
    let Ports {
        clients,
        addresses,
        status,
    } = match open_ports(rt, rt.alloc(), &settings) {
        Ok(ports) => ports,
        Err(status) => return status,
    };
    let served = serve_beside(
        rt,
        rt.alloc(),
        clients,
        options,
        saver,
        found,
        move |watcher| {
            tell_served(rt, settings.listen.as_slice(), addresses.as_slice());
            attend(
                rt,
                watcher,
                status,
                Known::begin(rt, &settings, connections, &*counts, is_found),
            );
        },
    );
    match served {
        Ok((service, saver)) => ended(rt, service, saver),
        Err(fault) => refused(rt, fault),
    }
}
