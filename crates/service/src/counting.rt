//! What is counted while connections are served. No decision rests on it.

use crate::limit::Limit;
use crate::note::Note;
use crate::replicas::note_node;
use ensemble::{Ensemble, Replica, Times};
use figures::{Figures, one_more};
use grammar::Conditions;
use loop_messages::Said;
use proto::{Fault, Reply};

/// What was counted, whether a command was answered since the clock was last read, and whether more may be stored.
pub struct Counting {
    /// The figures, and what readers are told.
    pub conditions: Conditions,
    /// The moment, in microseconds of the caller's clock.
    micros: u64,
    has_answered: bool,
    limit: Limit,
    /// Connections that were closed since there was no memory for what came of them.
    closed: u64,
}

impl Drop for Counting {
    fn drop(self) {
        let Counting {
            conditions: _,
            micros: _,
            has_answered: _,
            limit: _,
            closed: _,
        } = self;
    }
}

impl Counting {
    /// Nothing is counted, with these figures of the replicas.
    fn of(figures: Figures) -> Counting {
        Counting {
            conditions: Conditions {
                is_full: false,
                asked_bytes: 0,
                figures,
            },
            micros: 0,
            has_answered: false,
            limit: Limit::new(0),
            closed: 0,
        }
    }

    /// Nothing is counted, and so many executors and as many verifiers are up.
    pub fn new(members: u8) -> Counting {
        let mut figures = Figures::NONE;
        for id in 0..members {
            note_node(&mut figures, Replica::Executor(id), true);
            note_node(&mut figures, Replica::Verifier(id), true);
        }
        Counting::of(figures)
    }

    /// Nothing is counted, and all replicas are down.
    pub fn reopened() -> Counting {
        Counting::of(Figures::NONE)
    }

    /// The moment, in microseconds of the caller's clock.
    pub fn micros(&self) -> u64 {
        self.micros
    }

    /// At most so many bytes of items are stored. 0: as many as there is memory for.
    pub fn set_limit(&mut self, bytes: u64) {
        self.limit = Limit::new(bytes);
        self.conditions.figures.limits.item_bytes = bytes;
    }

    /// Takes over the parts of these figures that are known outside alone: the process, its time, and connections.
    pub fn see(&mut self, seen: &Figures) {
        let figures = &mut self.conditions.figures;
        figures.uptime_seconds = seen.uptime_seconds;
        figures.process = seen.process;
        figures.limits.connections = seen.limits.connections;
        figures.connections = seen.connections;
    }

    /// Counts the bytes of the items, if an executor is up. Else what was counted last stays.
    pub fn look(&mut self, ensemble: &Ensemble) {
        if let Some(bytes) = ensemble.item_bytes() {
            self.conditions.figures.memory.item_bytes = bytes;
        }
    }

    /// Counts the bytes of the items for the limit, if an executor is up.
    fn look_for_limit(&mut self, ensemble: &Ensemble) {
        if let Some(bytes) = ensemble.item_bytes() {
            self.limit
                .found(bytes, self.conditions.asked_bytes, self.micros);
        }
    }

    /// Decides whether more may be stored, if there is a limit.
    pub fn decide(&mut self, ensemble: &Ensemble) {
        let asked = self.conditions.asked_bytes;
        if self.limit.is_due(asked, self.micros) {
            self.look_for_limit(ensemble);
        }
        self.conditions.is_full = self.limit.is_reached(asked);
    }

    /// Counts the connection, if it is closed since there was no memory for what came of it.
    pub fn hear(&mut self, heard: &Result<Said, Fault>) {
        if let Err(Fault::NoMemory) = heard {
            self.closed = one_more(self.closed);
        }
    }

    /// How many connections were closed since there was no memory for what came of them.
    pub fn closed(&self) -> u64 {
        self.closed
    }

    /// How many microseconds went by since this moment.
    pub fn since(&self, moment: u64) -> u64 {
        self.micros.saturating_sub(moment)
    }

    /// The replicas have worked, and their batches took these times.
    pub fn work(&mut self, times: Times) {
        let parts = &mut self.conditions.figures.batch_parts;
        parts.execute.observe(times.executed);
        parts.agree.observe(times.agreed);
        parts.commit.observe(times.committed);
    }

    /// A command is answered.
    pub fn answer(&mut self, note: Note, reply: &Reply) {
        let figures = &mut self.conditions.figures;
        if let Some(asked) = note.asked {
            figures.answer(asked, reply);
        }
        figures.batches.requests = one_more(figures.batches.requests);
        figures.batch_parts.wait.observe(note.waited);
        self.has_answered = true;
    }

    /// It is now so late by the caller's clock: the time of the work is counted, if a command was answered in it.
    pub fn set_micros(&mut self, micros: u64) {
        if self.has_answered {
            let worked = micros.saturating_sub(self.micros);
            self.conditions.figures.batch_times.observe(worked);
            self.has_answered = false;
        }
        self.micros = micros;
    }
}
