//! Three executors over a network, in simulated time, in microseconds. The first one leads and orders a batch whenever it
//! may. A batch is decided some time after the second token of it, and after the one before.

use crate::executor::{Counts, Executor, Said};
use crate::verifier::Verifier;
use following::{HeldLetter, must_wait};
use random::Words;
use std::alloc::{AllocError, Global};

/// The least time that a letter takes, and by how much it may be longer.
const HOP: u64 = 105;

const HOP_MORE: u32 = 91;

/// How long the first two executors execute a batch, at least; it may take a fifth longer.
const FAST: u64 = 900;

/// How long a decision takes.
const DECISION: u64 = 1200;

const TICK: u64 = 100000;

/// When the last executor leaves, if it does.
const LEAVES: u64 = 1000000;

/// More events than there are in a minute.
const MOST_EVENTS: u32 = 10000000;

/// To whom an event happens that is of no executor.
const VERIFIER: u8 = 3;

const LAST: u8 = 2;

/// An executor has caught up if it follows, and so few batches are decided that it has not committed.
const FEW: u64 = 8;

#[derive(Clone, Copy)]
enum What {
    Letter(HeldLetter),
    Need(u8, u64),
    Token(u8, u64),
    Ask(u8, u64),
    Finish(u64),
    Decide(u64),
    Tick,
    Leave,
    Return,
}

#[derive(Clone, Copy)]
struct Event {
    at: u64,
    /// Of events at one time the one with the lowest number comes first.
    number: u64,
    to: u8,
    what: What,
}

/// How long the last executor executes a batch, at least, for how long it is away, how long a parcel takes, and when it is
/// over.
#[derive(Clone, Copy)]
pub struct Setting {
    pub slow: u64,
    pub away: u64,
    pub parcel: u64,
    pub end: u64,
}

/// What has become of it.
#[derive(Clone, Copy, Debug)]
pub struct Outcome {
    pub decided: u64,
    /// The number of the last executor, and its counts.
    pub number: u64,
    pub counts: Counts,
    /// By how many numbers it was behind at most when a batch was ordered, while it followed.
    pub lag: u64,
    /// How long after its return it had caught up.
    pub caught_up: Option<u64>,
}

pub struct Model {
    alloc: Global,
    setting: Setting,
    now: u64,
    events: Vec<Event>,
    made: u64,
    executors: Vec<Executor>,
    verifier: Verifier,
    words: Words,
    /// Since when the primary waits for an executor that is behind.
    held_back: Option<u64>,
    lag: u64,
    caught_up: Option<u64>,
}

impl Drop for Model {
    fn drop(self) {
        let Model {
            alloc: _,
            setting: _,
            now: _,
            events: _,
            made: _,
            executors: _,
            verifier: _,
            words: _,
            held_back: _,
            lag: _,
            caught_up: _,
        } = self;
    }
}

/// Whether the first comes before the second.
fn is_before(one: &Event, other: &Event) -> bool {
    one.at < other.at || (one.at == other.at && one.number < other.number)
}

/// The index of the event that comes first.
fn earliest(events: &[Event]) -> usize {
    let mut best = 0;
    for (i, event) in events.iter().enumerate() {
        if let Some(found) = events.get(best) {
            if is_before(event, found) {
                best = i;
            }
        }
    }
    best
}

/// Whether a parcel is on its way to this executor.
fn is_parcel_to(event: &Event, id: u8) -> bool {
    event.to == id && matches!(event.what, What::Letter(HeldLetter::Parcel { .. }))
}

impl Model {
    pub fn new(alloc: Global, setting: Setting) -> Result<Model, AllocError> {
        let mut model = Model {
            alloc,
            setting,
            now: 0,
            events: Vec::new(alloc),
            made: 0,
            executors: Vec::new(alloc),
            verifier: Verifier::new(),
            words: Words::new(1),
            held_back: None,
            lag: 0,
            caught_up: None,
        };
        model.begin()?;
        Ok(model)
    }

    fn begin(&mut self) -> Result<(), AllocError> {
        for id in 0..3u8 {
            self.executors.push(Executor::new(self.alloc, id))?;
        }
        self.after(VERIFIER, What::Tick, TICK)?;
        if 0 < self.setting.away {
            self.after(LAST, What::Leave, LEAVES)?;
            self.after(LAST, What::Return, LEAVES.saturating_add(self.setting.away))?;
        }
        Ok(())
    }

    /// This happens so much later.
    fn after(&mut self, to: u8, what: What, time: u64) -> Result<(), AllocError> {
        self.made = self.made.saturating_add(1);
        self.events.push(Event {
            at: self.now.saturating_add(time),
            number: self.made,
            to,
            what,
        })?;
        Ok(())
    }

    /// A letter leaves, and takes so much longer than others.
    fn send(&mut self, to: u8, what: What, more: u64) -> Result<(), AllocError> {
        let hop = HOP.saturating_add(u64::from(self.words.below(HOP_MORE)));
        self.after(to, what, hop.saturating_add(more))
    }

    /// All that happens until the end.
    pub fn run(&mut self) -> Result<(), AllocError> {
        for _ in 0..MOST_EVENTS {
            let Some(event) = self.next_event() else {
                break;
            };
            self.now = event.at;
            self.happen(event)?;
        }
        Ok(())
    }

    /// The next event before the end.
    fn next_event(&mut self) -> Option<Event> {
        let i = earliest(self.events.as_slice());
        if self.events.len() <= i {
            return None;
        }
        let event = self.events.swap_remove(i);
        if event.at < self.setting.end {
            Some(event)
        } else {
            None
        }
    }

    /// Something happens, and what follows of it at once.
    fn happen(&mut self, event: Event) -> Result<(), AllocError> {
        match event.what {
            What::Tick => self.tick()?,
            What::Token(from, number) => self.verifier.hear(from, number),
            What::Ask(from, place) => self.tell(from, place)?,
            What::Decide(number) => self.decide(number)?,
            _ => self.touch(event)?,
        }
        self.verify()?;
        self.order()?;
        self.look();
        Ok(())
    }

    /// A tick passes for all executors.
    fn tick(&mut self) -> Result<(), AllocError> {
        self.after(VERIFIER, What::Tick, TICK)?;
        for id in 0..3u8 {
            self.tick_of(id)?;
        }
        Ok(())
    }

    fn tick_of(&mut self, id: u8) -> Result<(), AllocError> {
        let hears = self.events.iter().any(|event| is_parcel_to(event, id));
        if let Some(executor) = self.executors.get_mut(usize::from(id)) {
            if executor.is_up {
                executor.tick(hears);
                executor.go_on()?;
            }
        }
        self.say_all(id)
    }

    /// The decrees from this place on are sent to an executor.
    fn tell(&mut self, to: u8, place: u64) -> Result<(), AllocError> {
        let last = self.verifier.last_answered(place);
        for number in place..=last {
            self.send_decree(to, number)?;
        }
        Ok(())
    }

    fn send_decree(&mut self, to: u8, number: u64) -> Result<(), AllocError> {
        let place = number;
        self.send(to, What::Letter(HeldLetter::Commit { place, number }), 0)
    }

    /// A batch is decided.
    fn decide(&mut self, number: u64) -> Result<(), AllocError> {
        self.verifier.decided = number;
        self.verifier.is_busy = false;
        for id in 0..3u8 {
            self.send_decree(id, number)?;
        }
        Ok(())
    }

    /// The next decision begins, if it can.
    fn verify(&mut self) -> Result<(), AllocError> {
        if let Some(number) = self.verifier.next() {
            self.verifier.is_busy = true;
            self.after(VERIFIER, What::Decide(number), DECISION)?;
        }
        Ok(())
    }

    /// Something happens to an executor.
    fn touch(&mut self, event: Event) -> Result<(), AllocError> {
        if let Some(executor) = self.executors.get_mut(usize::from(event.to)) {
            touch_one(executor, event.what)?;
        }
        self.say_all(event.to)
    }

    /// All that an executor has said leaves.
    fn say_all(&mut self, id: u8) -> Result<(), AllocError> {
        let Some(executor) = self.executors.get_mut(usize::from(id)) else {
            return Ok(());
        };
        let all = executor.take_said(self.alloc);
        for said in all.as_slice() {
            self.say(id, *said)?;
        }
        Ok(())
    }

    fn say(&mut self, id: u8, said: Said) -> Result<(), AllocError> {
        match said {
            Said::Token(number) => self.send(VERIFIER, What::Token(id, number), 0),
            Said::Ask(place) => self.send(VERIFIER, What::Ask(id, place), 0),
            Said::Need(peer) => self.send(peer, What::Need(id, self.number_of(id)), 0),
            Said::Parcel(to, number) => self.send(
                to,
                What::Letter(HeldLetter::Parcel { number }),
                self.setting.parcel,
            ),
            Said::Job(job) => {
                let time = self.time_of(id);
                self.after(id, What::Finish(job), time)
            }
        }
    }

    /// How long the executor takes for its next batch.
    fn time_of(&mut self, id: u8) -> u64 {
        let least = if id == LAST { self.setting.slow } else { FAST };
        least.saturating_add(u64::from(self.words.below(200)))
    }

    fn number_of(&self, id: u8) -> u64 {
        match self.executors.get(usize::from(id)) {
            Some(executor) => executor.number,
            None => 0,
        }
    }

    /// The number of an executor that follows; one that does not is never waited for.
    fn number_if_following(&self, id: u8) -> u64 {
        match self.executors.get(usize::from(id)) {
            Some(executor) if executor.is_up && !executor.report().is_fetching() => executor.number,
            _ => u64::MAX,
        }
    }

    /// The primary orders a batch, if it may, and need not wait.
    fn order(&mut self) -> Result<(), AllocError> {
        let Some(primary) = self.executors.first() else {
            return Ok(());
        };
        if !primary.report().may_begin() {
            return Ok(());
        }
        let batch = primary.next_batch();
        let numbers = [self.number_if_following(1), self.number_if_following(LAST)];
        if must_wait(batch, self.waited(), &numbers) {
            self.held_back = Some(self.held_back.unwrap_or(self.now));
            return Ok(());
        }
        self.held_back = None;
        self.lag = self.lag.max(batch.saturating_sub(numbers[1]));
        self.begin_batch(batch)
    }

    /// For how many milliseconds the primary waits.
    fn waited(&self) -> u32 {
        let since = self.held_back.unwrap_or(self.now);
        let time = self.now.saturating_sub(since) / 1000;
        u32::try_from(time).unwrap_or(u32::MAX)
    }

    fn begin_batch(&mut self, number: u64) -> Result<(), AllocError> {
        let order = HeldLetter::Order { epoch: 1, number };
        self.send(1, What::Letter(order), 0)?;
        self.send(LAST, What::Letter(order), 0)?;
        if let Some(primary) = self.executors.first_mut() {
            primary.begin(number)?;
        }
        self.say_all(0)
    }

    /// Notes when the last executor has caught up.
    fn look(&mut self) {
        let back = LEAVES.saturating_add(self.setting.away);
        let few = self.number_if_following(LAST).saturating_add(FEW);
        if self.caught_up.is_none()
            && back < self.now
            && self.verifier.decided <= few
            && self.is_back()
        {
            self.caught_up = Some(self.now.saturating_sub(back));
        }
    }

    /// Whether the last executor is up and follows.
    fn is_back(&self) -> bool {
        self.number_if_following(LAST) != u64::MAX
    }

    pub fn outcome(&self) -> Option<Outcome> {
        let last = self.executors.get(usize::from(LAST))?;
        Some(Outcome {
            decided: self.verifier.decided,
            number: last.number,
            counts: last.counts,
            lag: self.lag,
            caught_up: self.caught_up,
        })
    }
}

/// Something happens to this executor.
fn touch_one(executor: &mut Executor, what: What) -> Result<(), AllocError> {
    if let What::Return = what {
        executor.come_back()?;
    }
    if !executor.is_up {
        return Ok(());
    }
    match what {
        What::Letter(letter) => executor.hold(letter)?,
        What::Need(from, number) => executor.answer(from, number)?,
        What::Finish(job) => executor.finish(job)?,
        What::Leave => executor.leave(),
        _ => {}
    }
    if executor.is_up {
        executor.go_on()?;
    }
    Ok(())
}
