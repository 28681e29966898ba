//! How long the parts of a batch's way take. No decision rests on it.

use std::rt::Clock;
use std::time::Instant;

/// How long the parts of the way of all batches took that were carried out since this was last asked, in microseconds.
#[derive(Clone, Copy, Debug, PartialEq, Eq)]
pub struct Times {
    /// While executors ran them.
    pub executed: u64,
    /// From then to the first decree that an executor was told.
    pub agreed: u64,
    /// From then until no letter was under way.
    pub committed: u64,
}

/// A clock for these times.
#[derive(Clone, Copy)]
pub struct Stopwatch {
    times: Times,
    /// When it was last read.
    last: Option<Instant>,
    /// A batch was run, and what that sent is under way.
    is_under_way: bool,
    /// A batch was run since the times were last taken.
    has_run: bool,
}

impl Times {
    const NONE: Times = Times {
        executed: 0,
        agreed: 0,
        committed: 0,
    };
}

impl Stopwatch {
    /// No time went by.
    pub const NEW: Stopwatch = Stopwatch {
        times: Times::NONE,
        last: None,
        is_under_way: false,
        has_run: false,
    };

    /// The microseconds since it was last read, or 0 if the clock cannot be read.
    fn lap<R: Clock>(&mut self, rt: &R) -> u64 {
        let Ok(now) = Instant::now(rt) else {
            return 0;
        };
        let last = self.last.unwrap_or(now);
        self.last = Some(now);
        u64::try_from(now.saturating_duration_since(last).as_micros()).unwrap_or(u64::MAX)
    }

    /// Batches are to be run.
    pub fn begin<R: Clock>(&mut self, rt: &R) {
        let _ = self.lap(rt);
    }

    /// They have run.
    pub fn run<R: Clock>(&mut self, rt: &R) {
        let lap = self.lap(rt);
        self.times.executed = self.times.executed.saturating_add(lap);
        self.is_under_way = true;
        self.has_run = true;
    }

    /// All letters before the first decree have come.
    pub fn decide<R: Clock>(&mut self, rt: &R) {
        if self.is_under_way {
            let lap = self.lap(rt);
            self.times.agreed = self.times.agreed.saturating_add(lap);
        }
    }

    /// All letters have come.
    pub fn settle<R: Clock>(&mut self, rt: &R) {
        if self.is_under_way {
            let lap = self.lap(rt);
            self.times.committed = self.times.committed.saturating_add(lap);
            self.is_under_way = false;
        }
    }

    /// The times since this was last called. None: no batch was run.
    pub fn take(&mut self) -> Option<Times> {
        if !self.has_run {
            return None;
        }
        self.has_run = false;
        let times = self.times;
        self.times = Times::NONE;
        Some(times)
    }
}
