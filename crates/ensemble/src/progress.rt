//! How far the executors have come.

use hosts::ExecutorHost;
use housekeeping::Seen;
use std::alloc::{AllocError, Global};

/// How far all executors have come.
pub struct Progress {
    /// Whether nothing is under way, and nothing was left to be done.
    pub is_at_rest: bool,
    /// How often nothing was under way any more. It wraps.
    rests: u32,
    /// How many steps all executors have made.
    steps: u64,
    /// How far each executor was when it was last looked at.
    last: Vec<u64>,
    /// How many batches were cut. It wraps.
    pub cuts: u64,
}

impl Drop for Progress {
    fn drop(self) {
        let Progress {
            is_at_rest: _,
            rests: _,
            steps: _,
            last: _,
            cuts: _,
        } = self;
    }
}

impl Progress {
    /// Of so many executors, which have come nowhere.
    pub fn new(alloc: Global, count: u8) -> Result<Progress, AllocError> {
        let mut last = Vec::new(alloc);
        for _ in 0..count {
            last.push(0)?;
        }
        Ok(Progress {
            is_at_rest: true,
            rests: 0,
            steps: 0,
            last,
            cuts: 0,
        })
    }

    /// The executors have come so far. One that was opened again counts only what is beyond where it was.
    pub fn look_at(&mut self, executors: &[ExecutorHost]) {
        for (host, last) in executors.iter().zip(self.last.iter_mut()) {
            if let Some(now) = host.steps() {
                self.steps = self.steps.saturating_add(now.saturating_sub(*last));
                *last = now.max(*last);
            }
        }
    }

    /// Nothing is under way any more.
    pub fn rest(&mut self) {
        if !self.is_at_rest {
            self.is_at_rest = true;
            self.rests = self.rests.wrapping_add(1);
        }
    }

    /// How far they have come, for whoever waits for a reply.
    pub fn seen(&self) -> Seen {
        Seen {
            rests: self.rests,
            steps: self.steps,
        }
    }
}
