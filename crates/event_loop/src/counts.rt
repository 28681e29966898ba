//! What an event loop counts of its work, and what other threads see of it.

use crate::service::Serve;
use figures::Histogram;
use std::sync::atomic::{AtomicBool, Ordering};
use std::sync::{Mutex, MutexGuard, Wait};

/// Counts since the start. Each stays at 2^64 - 1.
#[derive(Clone, Copy, Debug, PartialEq, Eq)]
pub struct Counts {
    /// Connections that are open now.
    pub open: u64,
    /// Connections that were let in.
    pub accepted: u64,
    /// Connections that were refused since there is no room for them.
    pub refused: u64,
    /// Connections that were closed since nothing happened on them for as long as is allowed.
    pub idle: u64,
    /// How often a connection could not be accepted, since descriptors or memory ran out.
    pub failed: u64,
    /// Bytes that were read from connections.
    pub bytes_read: u64,
    /// Bytes that were written to connections.
    pub bytes_written: u64,
    /// From when bytes of a connection were read to when all that answers them was written.
    pub reply_times: Histogram,
}

impl Counts {
    /// Nothing was counted.
    pub const NONE: Counts = Counts {
        open: 0,
        accepted: 0,
        refused: 0,
        idle: 0,
        failed: 0,
        bytes_read: 0,
        bytes_written: 0,
        reply_times: Histogram::NONE,
    };
}

/// The sum of both, or 2^64 - 1 if that is less.
pub fn plus(count: u64, more: usize) -> u64 {
    count.saturating_add(more as u64)
}

/// What the threads of an event loop and the thread that started them share.
#[derive(Drop)]
pub struct Shared {
    is_stopping: AtomicBool,
    has_ended: AtomicBool,
    counts: Mutex<Counts>,
}

impl Shared {
    /// A loop that is to begin.
    pub fn new() -> Shared {
        Shared {
            is_stopping: AtomicBool::new(false),
            has_ended: AtomicBool::new(false),
            counts: Mutex::new(Counts::NONE),
        }
    }

    /// Tells the loop to stop. It does so after its next wait.
    pub fn stop(&self) {
        self.is_stopping.store(true, Ordering::SeqCst);
    }

    /// Whether the loop is to stop.
    pub fn is_stopping(&self) -> bool {
        self.is_stopping.load(Ordering::SeqCst)
    }

    /// The loop has ended.
    pub fn end(&self) {
        self.has_ended.store(true, Ordering::SeqCst);
    }

    /// Shows the counts to other threads, unless one of them reads just now. Whether it did.
    pub fn publish(&self, counts: Counts) -> bool {
        match self.counts.try_lock() {
            Some(mut guard) => {
                *guard = counts;
                true
            }
            None => false,
        }
    }
}

/// What the thread that started an event loop sees of it.
#[derive_where(Clone, Copy)]
pub struct Watch<'a, S> {
    service: &'a Mutex<S>,
    shared: &'a Shared,
}

impl<'a, S: Serve> Watch<'a, S> {
    /// A view of these.
    pub fn new(service: &'a Mutex<S>, shared: &'a Shared) -> Watch<'a, S> {
        Watch { service, shared }
    }

    /// The counts, as they were at most a tenth of a second ago. The event loop does not wait for this.
    pub fn counts<R: Wait>(&self, rt: &R) -> Counts {
        *self.shared.counts.lock(rt)
    }

    /// The service. The caller waits while it works, and it does not work while the caller has it.
    pub fn service<R: Wait>(&self, rt: &R) -> MutexGuard<'a, S> {
        self.service.lock(rt)
    }

    /// Whether the event loop has ended by itself, since the system refused to wait on the sockets.
    pub fn has_ended(&self) -> bool {
        self.shared.has_ended.load(Ordering::SeqCst)
    }
}
