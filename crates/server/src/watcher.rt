//! What others see of a server while it serves.

use crate::durable::DurableService;
use crate::save::{Save, SaveFolders};
use event_loop::{Counts, Watch};
use figures::{Connections, Figures};
use service::SaveFault;
use std::sync::Wait;

/// What the thread that started a server sees of it.
#[derive_where(Clone, Copy)]
pub struct Watcher<'a, S> {
    watch: Watch<'a, DurableService<S>>,
}

/// The event loop's counts, as they are shown.
fn connections(counts: Counts) -> Connections {
    Connections {
        open: counts.open,
        accepted: counts.accepted,
        refused: counts.refused,
        idle: counts.idle,
        failed: counts.failed,
        bytes_read: counts.bytes_read,
        bytes_written: counts.bytes_written,
    }
}

impl<'a, S: Save> Watcher<'a, S> {
    /// A view of this.
    pub fn new(watch: Watch<'a, DurableService<S>>) -> Watcher<'a, S> {
        Watcher { watch }
    }

    /// What the server has counted. The caller waits for the end of a batch or of a save, if one is under way; clients wait
    /// for the copy alone. What the server does not know of itself, as its memory and the time since its start, is 0. It waits, so no
    /// clause says what it gives.
    pub fn figures<R: Wait>(&self, rt: &R) -> Figures {
        let counts = self.watch.counts(rt);
        let mut service = self.watch.service(rt);
        let mut figures = service.figures();
        drop(service);
        figures.connections = connections(counts);
        figures.reply_times = counts.reply_times;
        figures
    }

    /// What clients are shown by `stats` of what the server does not know of itself: the process, its time, and
    /// connections. The caller waits as in `figures`.
    pub fn see<R: Wait>(&self, rt: &R, seen: &Figures) {
        self.watch.service(rt).see(seen);
    }

    /// Why nothing is answered just now: the last save failed. None: it did not, or nothing was to be saved yet. The caller
    /// waits as in `figures`.
    pub fn save_fault<R: Wait>(&self, rt: &R) -> Option<SaveFault> {
        self.watch.service(rt).fault()
    }

    /// In how many folders it is saved. The caller waits as in `figures`.
    pub fn save_folders<R: Wait>(&self, rt: &R) -> SaveFolders {
        self.watch.service(rt).folders()
    }

    /// Whether the server has ended by itself, since the system refused to wait on its sockets. Its thread sets this, so
    /// no clause says when.
    pub fn has_ended(&self) -> bool {
        self.watch.has_ended()
    }
}
