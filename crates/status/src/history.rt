//! What the page draws of the last minutes.

ghost use Rattle.std.specs.Prelude.{◌≡◌};
ghost use Rattle.status.specs.History.{sample_of};

use figures::{BUCKETS, Figures, Keys, plus};
use metrics::Folders;
use std::alloc::{AllocError, Global};
use std::marker::Model;

/// So many samples are kept: those of ten minutes.
pub const MOST_SAMPLES: usize = 120;

/// So many seconds are between two samples, at least.
pub const SAMPLE_SECONDS: u64 = 5;

/// What the page draws of one moment.
#[derive(Clone, Copy, Debug, PartialEq, Eq)]
pub struct Sample {
    pub uptime_seconds: u64,
    /// Requests that were answered since the start.
    pub requests: u64,
    pub keys: Keys,
    /// How many times to reply were in each bucket.
    pub replies: [u64; BUCKETS],
}

impl Sample {
    /// What is drawn of these figures.
    pub fn of(figures: &Figures) -> Sample
        ensures { result ≡ sample_of figures.now }
    {
        Sample {
            uptime_seconds: figures.uptime_seconds,
            requests: figures.batches.requests,
            keys: figures.keys,
            replies: figures.reply_times.counts,
        }
    }
}

/// The samples of the last ten minutes, the oldest first.
pub struct History {
    samples: Vec<Sample>,
    /// The next sample is due in this second since the start.
    due: u64,
}

impl Drop for History {
    fn drop(self) {
        let History { samples: _, due: _ } = self;
    }
}

impl Model for History {
    ghost use Rattle.std.specs.Prelude.{◌≤◌, length};
    ghost use Rattle.status.specs.History.{HistoryView};
    ghost use Rattle.status.specs.declared.history.TheConstants.{MOST_SAMPLES};

    ghost Value = { HistoryView };

    ghost view = { λ h. record { samples = h.samples.items; due = h.due } };

    ghost invariant = { λ h. length h.samples.items ≤ MOST_SAMPLES };
}

impl History {
    ghost use Rattle.std.specs.Prelude.{◌≡◌, [], OnOk, OnErr};
    ghost use Rattle.status.specs.History.{history_after};

    /// Nothing is kept.
    pub fn new(alloc: Global) -> History
        ensures { result ≡ record { samples = []; due = 0 } }
    {
        History {
            samples: Vec::new(alloc),
            due: 0,
        }
    }

    /// Keeps a sample of these figures, if five seconds have passed since the last one. The oldest goes if there would be
    /// more than 120. If memory for it runs out nothing changes.
    pub fn keep(&mut self, figures: &Figures) -> Result<(), AllocError>
        ensures ok { OnOk result (self.new ≡ history_after self.old figures.now) }
        ensures err { OnErr result (self.new ≡ self.old) }
    {
        if figures.uptime_seconds < self.due {
            return Ok(());
        }
        self.samples.push(Sample::of(figures))?;
        if MOST_SAMPLES < self.samples.len() {
            self.samples.remove(0);
        }
        self.due = plus(figures.uptime_seconds, SAMPLE_SECONDS);
        Ok(())
    }

    /// The samples, the oldest first.
    pub fn samples(&self) -> &[Sample]
        ensures { result.now ≡ self.now.samples }
    {
        self.samples.as_slice()
    }
}

/// What the status port shows.
pub struct Seen {
    pub figures: Figures,
    /// The folders in which it is saved.
    pub folders: Folders,
    pub history: History,
}

impl Drop for Seen {
    fn drop(self) {
        let Seen {
            figures: _,
            folders: _,
            history: _,
        } = self;
    }
}
