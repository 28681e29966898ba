//! The status port.

use figures::Figures;
use metrics::Folders;
use mio::net::TcpListener as Listener;
use status::{History, Seen};
use status_server::{StatusServer, Watch};
use std::alloc::Global;
use std::net::{Net, TcpListener, TcpStream};
use std::rt::Clock;
use std::sync::atomic::{AtomicBool, Ordering};
use std::sync::{Mutex, MutexGuard, Wait};
use std::time::Duration;
use std::{io, thread};

/// So many seconds it waits for somebody who asks before it looks whether it is to end.
const PATIENCE: u64 = 1;

/// What the status port shows: a copy that is made once a second. So whoever asks there never reaches the server.
pub struct Shown {
    seen: Mutex<Seen>,
    has_ended: AtomicBool,
}

impl Drop for Shown {
    fn drop(self) {
        let Shown {
            seen: _,
            has_ended: _,
        } = self;
    }
}

impl Shown {
    /// These are shown.
    pub fn new(alloc: Global, figures: Figures, folders: Folders) -> Shown {
        let mut history = History::new(alloc);
        // Without memory for it the page lacks a sample.
        let _ = history.keep(&figures);
        Shown {
            seen: Mutex::new(Seen {
                figures,
                folders,
                history,
            }),
            has_ended: AtomicBool::new(false),
        }
    }

    /// These are shown from now on, and kept in the history if a sample is due.
    pub fn renew<R: Wait>(&self, rt: &R, figures: Figures, folders: Folders) {
        let mut guard = self.seen.lock(rt);
        let seen = &mut *guard;
        seen.figures = figures;
        seen.folders = folders;
        let _ = seen.history.keep(&figures);
    }

    /// The status port is to end.
    pub fn end(&self) {
        self.has_ended.store(true, Ordering::SeqCst);
    }

    /// Whether it is to end.
    pub fn has_ended(&self) -> bool {
        self.has_ended.load(Ordering::SeqCst)
    }
}

impl Watch for Shown {
    fn seen<R: Wait>(&self, rt: &R) -> MutexGuard<'_, Seen> {
        self.seen.lock(rt)
    }
}

/// Answers whoever asks, until it is to end. After a pass that failed, as at the limit on descriptors, it rests for a
/// second.
fn answer_until_end<R: Wait + Clock>(rt: &R, server: &mut StatusServer, shown: &Shown) {
    let patience = Duration::from_secs(PATIENCE);
    for _ in rt.forever() {
        if shown.has_ended() {
            return;
        }
        if server.pass(rt, shown, Some(patience)).is_err() {
            thread::sleep(rt, patience);
        }
    }
}

/// Shows the figures to whoever asks at the listener, until it is to end.
///
/// An error comes only at the start: the system gives no descriptor, or memory runs out.
pub fn show<R: Net<Listener = TcpListener, Stream = TcpStream> + Wait + Clock>(
    rt: &R,
    alloc: Global,
    shown: &Shown,
    listener: TcpListener,
) -> io::Result<()> {
    listener.set_nonblocking(true)?;
    let listener = Listener::from_std(listener);
    let mut server = StatusServer::new(rt, alloc, listener)?;
    answer_until_end(rt, &mut server, shown);
    Ok(())
}
