//! An executor of the model, and what its member holds for it. There is one epoch, and each decree is a Commit, so that a
//! decree has the number of its batch as its place.

use following::{Action, ExecutorReport, Following, HeldLetter, may_hold};
use std::alloc::{AllocError, Global};
use std::collections::VecDeque;
use std::mem;

/// More actions than one letter leads to.
const MOST_ACTIONS: u32 = 100000;

/// How long a letter is, in bytes.
const LETTER_BYTES: u64 = 4096;

/// How often it came to what.
#[derive(Clone, Copy, Debug, PartialEq, Eq)]
pub struct Counts {
    pub executed: u64,
    /// A decree was handed in to which no batch led.
    pub fell_behind: u64,
    pub needs: u64,
    /// Parcels that came, and that were taken.
    pub parcels: u64,
    pub taken: u64,
}

/// What an executor and its member say.
#[derive(Clone, Copy)]
pub enum Said {
    /// It has executed this batch.
    Token(u64),
    /// It asks for the decrees from this place on.
    Ask(u64),
    /// It asks this executor for its state.
    Need(u8),
    /// The state of this number, for this executor.
    Parcel(u8, u64),
    /// It begins a batch, as this job.
    Job(u64),
}

pub struct Executor {
    pub is_up: bool,
    pub number: u64,
    pub counts: Counts,
    known: u64,
    chain: VecDeque<u64>,
    running: Option<u64>,
    job: u64,
    held: Vec<HeldLetter>,
    following: Following,
    said: Vec<Said>,
}

impl Drop for Executor {
    fn drop(self) {
        let Executor {
            is_up: _,
            number: _,
            counts: _,
            known: _,
            chain: _,
            running: _,
            job: _,
            held: _,
            following: _,
            said: _,
        } = self;
    }
}

/// Whether both are orders, both are decrees, or both are parcels.
fn are_alike(one: HeldLetter, other: HeldLetter) -> bool {
    match one {
        HeldLetter::Order { .. } => matches!(other, HeldLetter::Order { .. }),
        HeldLetter::Parcel { .. } => matches!(other, HeldLetter::Parcel { .. }),
        _ => matches!(other, HeldLetter::Commit { .. }),
    }
}

impl Executor {
    /// Executor `id` of three.
    pub fn new(alloc: Global, id: u8) -> Executor {
        Executor {
            is_up: true,
            number: 0,
            counts: Counts {
                executed: 0,
                fell_behind: 0,
                needs: 0,
                parcels: 0,
                taken: 0,
            },
            known: 0,
            chain: VecDeque::new(alloc),
            running: None,
            job: 0,
            held: Vec::new(alloc),
            following: Following::new(1, id),
            said: Vec::new(alloc),
        }
    }

    pub fn report(&self) -> ExecutorReport {
        ExecutorReport {
            number: self.number,
            known: self.known,
            standing: self.known,
            epoch: 1,
            chain: self.chain.len(),
            is_running: self.running.is_some(),
        }
    }

    /// The number of the batch after its last one.
    pub fn next_batch(&self) -> u64 {
        let last = self.chain.back().copied().unwrap_or(self.number);
        last.saturating_add(1)
    }

    /// What it said since this was asked last.
    pub fn take_said(&mut self, alloc: Global) -> Vec<Said> {
        mem::replace(&mut self.said, Vec::new(alloc))
    }

    fn say(&mut self, said: Said) -> Result<(), AllocError> {
        self.said.push(said)?;
        Ok(())
    }

    /// How many letters of the same kind are held.
    fn alike(&self, letter: HeldLetter) -> usize {
        self.held
            .iter()
            .filter(|other| are_alike(letter, **other))
            .count()
    }

    /// A letter comes.
    pub fn hold(&mut self, letter: HeldLetter) -> Result<(), AllocError> {
        if let HeldLetter::Parcel { .. } = letter {
            self.counts.parcels = self.counts.parcels.saturating_add(1);
        }
        let bytes = (self.held.len() as u64).saturating_mul(LETTER_BYTES);
        if may_hold(
            self.report(),
            letter,
            self.alike(letter),
            bytes,
            LETTER_BYTES,
        ) {
            self.held.push(letter)?;
        }
        Ok(())
    }

    /// Another executor has the state of this number.
    pub fn answer(&mut self, from: u8, number: u64) -> Result<(), AllocError> {
        if number < self.number {
            self.say(Said::Parcel(from, self.number))?;
        }
        Ok(())
    }

    /// Bytes of a parcel came, or a tick has passed.
    pub fn tick(&mut self, hears_parcel: bool) {
        self.following.tick();
        if hears_parcel {
            self.following.hear_parcel();
        }
    }

    /// All that is to be done now.
    pub fn go_on(&mut self) -> Result<(), AllocError> {
        for _ in 0..MOST_ACTIONS {
            let report = self.report();
            let action = self.following.next(report, self.held.as_slice());
            if action == Action::Wait {
                break;
            }
            self.act(action)?;
        }
        Ok(())
    }

    fn act(&mut self, action: Action) -> Result<(), AllocError> {
        match action {
            Action::HandInOrder(i) => self.hand_in(i),
            Action::HandInDecree(i) => self.hand_in(i),
            Action::HandInParcel(i) => self.hand_in(i),
            Action::DropParcel(i) => {
                self.take_out(i);
                Ok(())
            }
            Action::Ask(place) => self.say(Said::Ask(place)),
            Action::Need(peer) => {
                self.counts.needs = self.counts.needs.saturating_add(1);
                self.say(Said::Need(peer))
            }
            Action::Wait => Ok(()),
        }
    }

    /// Takes a letter out of those that are held.
    fn take_out(&mut self, i: usize) -> Option<HeldLetter> {
        if i < self.held.len() {
            Some(self.held.remove(i))
        } else {
            None
        }
    }

    fn hand_in(&mut self, i: usize) -> Result<(), AllocError> {
        let Some(letter) = self.take_out(i) else {
            return Ok(());
        };
        match letter {
            HeldLetter::Order { number, .. } => self.begin(number)?,
            HeldLetter::Commit { number, .. } => self.obey(number),
            HeldLetter::Parcel { number } => self.take(number),
            HeldLetter::Rollback { .. } => {}
        }
        Ok(())
    }

    /// Begins to execute a batch.
    pub fn begin(&mut self, number: u64) -> Result<(), AllocError> {
        self.running = Some(number);
        self.job = self.job.wrapping_add(1);
        self.say(Said::Job(self.job))
    }

    /// What runs is dropped.
    fn stop(&mut self) {
        self.running = None;
        self.job = self.job.wrapping_add(1);
    }

    /// A job is done.
    pub fn finish(&mut self, job: u64) -> Result<(), AllocError> {
        if job != self.job {
            return Ok(());
        }
        let Some(number) = self.running.take() else {
            return Ok(());
        };
        self.counts.executed = self.counts.executed.saturating_add(1);
        self.chain.push_back(number)?;
        self.say(Said::Token(number))
    }

    /// The decree on the batch of this number.
    fn obey(&mut self, number: u64) {
        self.known = number;
        if self.chain.front().copied() == Some(number) {
            let _ = self.chain.pop_front();
            self.number = number;
            return;
        }
        self.chain.clear();
        self.stop();
        self.counts.fell_behind = self.counts.fell_behind.saturating_add(1);
    }

    /// The state of this number.
    fn take(&mut self, number: u64) {
        if self.number < self.known && number == self.known {
            self.number = number;
            self.chain.clear();
            self.counts.taken = self.counts.taken.saturating_add(1);
        }
    }

    /// Its process ends.
    pub fn leave(&mut self) {
        self.is_up = false;
        self.stop();
        self.held.clear();
    }

    /// Another process goes on from its record.
    pub fn come_back(&mut self) -> Result<(), AllocError> {
        self.is_up = true;
        let next = self.report().next_place();
        self.say(Said::Ask(next))
    }
}
