//! A service that saves what it answered before anybody sees it.

ghost use Rattle.std.specs.Prelude.{◌≡◌, ◌⊎◌, ℕ, List, Option, IsTrue};
ghost use denote.Param.Send.{IsSync};
ghost use Rattle.server.specs.Answering.{DoesWhatIsDue};
ghost use Rattle.server.specs.Durable.{IsFoundOf};

use crate::answering::Answering;
use crate::save::{Save, SaveFolders};
use event_loop::Serve;
use figures::{Figures, Histogram, Saves, one_more};
use loop_messages::{Heard, Said};
use service::{SaveFault, Service, ServiceRecord};
use std::alloc::Global;
use std::mem;
use std::rt::Clock;
use std::sync::Wait;
use std::thread::Threads;
use std::time::Instant;

/// So few messages are saved at once. More wait for what the service has to do next, and are saved with that.
const MOST_AT_ONCE: usize = 2;

/// When more messages than these wait they are saved while the service works.
const MOST_GATHERED: usize = 512;

/// The service, where its record is saved, and what it has said and nobody has seen: a record of a later moment than that
/// has to be saved first.
///
/// A save is for all that was said until nothing more is to be done. If that is much, it is held and saved while the
/// service goes on.
pub struct DurableService<S> {
    alloc: Global,
    answering: Answering,
    saver: S,
    /// It was said before all that the service says now.
    held: Vec<Said>,
    /// The last save failed: the service does not work before one succeeds.
    is_failing: bool,
    /// Saves that succeeded.
    made: u64,
    /// Saves that failed.
    failed: u64,
    /// What they took.
    times: Histogram,
}

/// How long it is since this moment, in microseconds. 0: the clock cannot be read.
fn micros_since<C: Clock>(clock: &C, begun: Option<Instant>) -> u64 {
    match (begun, Instant::now(clock)) {
        (Some(begun), Ok(now)) => u64::try_from(
            now.saturating_duration_since(begun).as_micros(),
        ).unwrap_or(u64::MAX),
        _ => 0,
    }
}

/// Saves the record while the service works.
fn save_and_run<S: Save, R: Threads + Wait + Sync, C: Clock>(
    saver: &mut S,
    answering: &mut Answering,
    alloc: Global,
    kept: &mut ServiceRecord,
    rt: &R,
    clock: &C,
    seconds: u32,
) -> bool
    requires sync { IsSync R.row }
    ensures ran { DoesWhatIsDue seconds answering.old answering.new }
    ensures saved { IsTrue result → (found : Option (List ℕ)) → S.may_find saver.new found → IsFoundOf S.is_text kept.old found }
    ensures crash { (found : Option (List ℕ)) → S.may_find saver.new found → S.may_find saver.old found ⊎ IsFoundOf S.is_text kept.old found }
{
    saver.save_beside(
        rt,
        alloc,
        kept,
        &mut ||
            requires { IsSync R.row }
            ensures { DoesWhatIsDue seconds answering.entry.now answering.exit.now }
        { answering.run(rt, clock, seconds) },
    )
}

impl<S: Save> DurableService<S> {
    ghost use denote.Param.Send.{IsSync};
    ghost use Rattle.std.specs.Prelude.{◌≡◌, [], true, false, not};
    ghost use Rattle.server.specs.Durable.{IsSavedNow, MayBeSavedNow, ReleasesHeld};

    /// Nothing is held.
    pub fn new(alloc: Global, answering: Answering, saver: S) -> DurableService<S>
        ensures answering { result.answering ≡ answering }
        ensures saver { result.saver ≡ saver }
        ensures none { result.held.items ≡ [] }
        ensures fine { result.is_failing ≡ false }
    {
        DurableService {
            alloc,
            answering,
            saver,
            held: Vec::new(alloc),
            is_failing: false,
            made: 0,
            failed: 0,
            times: Histogram::NONE,
        }
    }

    /// The service itself, and where its record was saved. What is held nobody sees.
    pub fn into_parts(self) -> (Service, S)
        ensures service { result.0 ≡ self.answering.service }
        ensures saver { result.1 ≡ self.saver }
    {
        let DurableService {
            alloc: _,
            answering,
            saver,
            held,
            is_failing: _,
            made: _,
            failed: _,
            times: _,
        } = self;
        drop(held);
        (answering.into_service(), saver)
    }

    /// What was counted.
    pub fn figures(&mut self) -> Figures
        ensures same { self.new ≡ self.old }
    {
        let mut figures = self.answering.figures();
        let folders = self.folders();
        figures.saves = Saves {
            made: self.made,
            failed: self.failed,
            waiting: self.held.len().saturating_add(self.answering.said_count()) as u64,
            failing: if self.is_failing { 1 } else { 0 },
            bytes: 0,
            folders: folders.all,
            current_folders: folders.current,
            times: self.times,
        };
        figures
    }

    /// Takes over what only the event loop and the system know, for `stats`.
    pub fn see(&mut self, seen: &Figures)
        ensures same { self.new ≡ self.old }
    {
        self.answering.see(seen);
    }

    /// Why what is held has not left: the last save failed, or there was no memory for the record. None: it did not fail.
    pub fn fault(&self) -> Option<SaveFault> {
        match (self.is_failing, self.saver.fault()) {
            (false, _) => None,
            (true, Some(fault)) => Some(fault),
            (true, None) => Some(SaveFault::NoMemory),
        }
    }

    /// In how many folders it is saved.
    pub fn folders(&self) -> SaveFolders {
        self.saver.folders()
    }

    /// A save succeeded, or failed, after so many microseconds.
    fn note(&mut self, is_saved: bool, micros: u64)
        ensures answering { self.new.answering ≡ self.old.answering }
        ensures saver { self.new.saver ≡ self.old.saver }
        ensures held { self.new.held ≡ self.old.held }
        ensures failing { self.new.is_failing ≡ not is_saved }
    {
        if is_saved {
            self.made = one_more(self.made);
        } else {
            self.failed = one_more(self.failed);
        }
        self.times.observe(micros);
        self.is_failing = !is_saved;
    }

    /// Saves a record of this moment: whether it is saved.
    fn save<R: Threads + Sync, C: Clock>(&mut self, rt: &R, clock: &C) -> bool
        requires { IsSync R.row }
        ensures answering { self.new.answering ≡ self.old.answering }
        ensures held { self.new.held ≡ self.old.held }
        ensures failing { self.new.is_failing ≡ not result }
        ensures saved { IsTrue result → IsSavedNow S.is_text (S.may_find self.new.saver) self.old.answering.service }
        ensures crash { MayBeSavedNow S.is_text (S.may_find self.old.saver) (S.may_find self.new.saver) self.old.answering.service }
    {
        if !self.saver.keeps() {
            self.is_failing = false;
            return true;
        }
        let begun = Instant::now(clock).ok();
        let is_saved = match self.answering.record() {
            Ok(record) => self.saver.save(rt, self.alloc, &record),
            Err(_) => false,
        };
        self.note(is_saved, micros_since(clock, begun));
        is_saved
    }

    /// Hands out what is held, if a record of this moment is saved.
    fn hand_out<R: Threads + Sync, C: Clock>(&mut self, rt: &R, clock: &C) -> Vec<Said>
        requires { IsSync R.row }
        ensures answering { self.new.answering ≡ self.old.answering }
        ensures releases { ReleasesHeld S.is_text (S.may_find self.old.saver) (S.may_find self.new.saver) self.old.answering.service self.old.held.items result.items self.new.held.items }
        ensures failing { self.new.is_failing ≡ true → result.items ≡ [] }
        ensures leaves { self.new.is_failing ≡ false → result.items ≡ self.old.held.items }
    {
        if self.held.is_empty() {
            self.is_failing = false;
            return Vec::new(self.alloc);
        }
        if self.save(rt, clock) {
            mem::replace(&mut self.held, Vec::new(self.alloc))
        } else {
            Vec::new(self.alloc)
        }
    }
}

impl<S: Save> DurableService<S> {
    ghost use denote.Param.Send.{IsSync};
    ghost use Rattle.std.specs.Prelude.{◌≡◌, ◌⊎◌, [], true, false};
    ghost use Rattle.service.specs.Process.{kept_service};
    ghost use Rattle.service.specs.Record.{kept_in};
    ghost use Rattle.server.specs.Durable.{HandsOutSaved};

    /// Saves the record, which is of this moment, while the service works. If it is saved what was held leaves, and what
    /// the service says is held. Else both wait.
    fn save_beside<R: Threads + Wait + Sync, C: Clock>(
        &mut self,
        mut due: ServiceRecord,
        rt: &R,
        clock: &C,
        seconds: u32,
    ) -> Vec<Said>
        requires sync { IsSync R.row }
        requires moment { kept_in self.old.answering.service.connections.dialect due ≡ kept_service self.old.answering.service }
        ensures saved { HandsOutSaved S.is_text (S.may_find self.old.saver) (S.may_find self.new.saver) seconds self.old.answering self.old.held.items result.items self.new.answering self.new.held.items }
        ensures failing { self.new.is_failing ≡ true → result.items ≡ [] }
        ensures leaves { self.new.is_failing ≡ false → result.items ≡ self.old.held.items }
    {
        let begun = Instant::now(clock).ok();
        let is_saved = save_and_run(
            &mut self.saver,
            &mut self.answering,
            self.alloc,
            &mut due,
            rt,
            clock,
            seconds,
        );
        self.note(is_saved, micros_since(clock, begun));
        if !is_saved {
            return Vec::new(self.alloc);
        }
        let said = self.answering.take_said();
        mem::replace(&mut self.held, said)
    }

    /// Lets the service work, unless nothing is to be done but to hand out what it said. Whether that waits for more.
    fn gather<R: Threads + Wait + Sync, C: Clock>(
        &mut self,
        rt: &R,
        clock: &C,
        seconds: u32,
    ) -> bool
        requires { IsSync R.row }
        ensures ran { DoesWhatIsDue seconds self.old.answering self.new.answering ⊎ (self.new.answering ≡ self.old.answering) }
        ensures saver { self.new.saver ≡ self.old.saver }
        ensures held { self.new.held ≡ self.old.held }
        ensures failing { self.new.is_failing ≡ self.old.is_failing }
    {
        if self.answering.has_said() && !self.answering.has_work() {
            return false;
        }
        self.answering.run(rt, clock, seconds);
        let count = self.answering.said_count();
        MOST_AT_ONCE < count && count <= MOST_GATHERED && self.saver.keeps()
    }

    /// Whether what is held is to be saved while the service works.
    fn is_full(&self) -> bool {
        MOST_GATHERED < self.held.len() && self.answering.has_work() && self.saver.keeps()
    }

    /// Saves what is held while the service works; or saves it alone, if the last save failed.
    fn go_on<R: Threads + Wait + Sync, C: Clock>(
        &mut self,
        rt: &R,
        clock: &C,
        seconds: u32,
    ) -> Vec<Said>
        requires { IsSync R.row }
        ensures saved { HandsOutSaved S.is_text (S.may_find self.old.saver) (S.may_find self.new.saver) seconds self.old.answering self.old.held.items result.items self.new.answering self.new.held.items }
        ensures failing { self.new.is_failing ≡ true → result.items ≡ [] }
        ensures leaves { self.new.is_failing ≡ false → result.items ≡ self.old.held.items }
        ensures rests { self.old.is_failing ≡ true → self.new.answering ≡ self.old.answering }
    {
        if self.is_failing {
            return self.hand_out(rt, clock);
        }
        match self.answering.record() {
            Ok(record) => self.save_beside(record, rt, clock, seconds),
            Err(_) => {
                self.note(false, 0);
                Vec::new(self.alloc)
            }
        }
    }
}

impl<S: Save> Serve for DurableService<S> {
    ghost use denote.Param.Send.{IsSync};
    ghost use Rattle.std.specs.Prelude.{◌≡◌, ◌≢◌, ◌⊎◌, ℕ, [], true, false};
    ghost use Rattle.service.specs.Steps.{NoneWaits};
    ghost use Rattle.service.specs.Owed.{AllWait, IsFreeIn};
    ghost use Rattle.service.specs.Ticks.{HaveWaited, HavePaused, NodesHaveTicked, HasSameAsked, AreAllUpIn};
    ghost use Rattle.server.specs.Answering.{HandsInAll};
    ghost use Rattle.server.specs.Durable.{HandsOutSaved};

    fn set_micros(&mut self, micros: u64)
        ensures { self.new ≡ self.old }
    {
        self.answering.set_micros(micros);
    }

    fn hear(&mut self, heard: Vec<Heard>)
        ensures handed { HandsInAll heard.items self.old.answering self.new.answering }
        ensures saver { self.new.saver ≡ self.old.saver }
        ensures held { self.new.held ≡ self.old.held }
        ensures failing { self.new.is_failing ≡ self.old.is_failing }
    {
        self.answering.hear(heard);
    }

    fn work<R: Threads + Wait + Sync, C: Clock>(
        &mut self,
        rt: &R,
        clock: &C,
        seconds: u32,
    ) -> Vec<Said>
        requires { IsSync R.row }
        ensures saved { HandsOutSaved S.is_text (S.may_find self.old.saver) (S.may_find self.new.saver) seconds self.old.answering self.old.held.items result.items self.new.answering self.new.held.items }
        ensures failing { self.new.is_failing ≡ true → result.items ≡ [] }
        ensures leaves { self.new.is_failing ≡ false → (self.old.held.items ≡ []) ⊎ (result.items ≡ self.old.held.items) }
        ensures rests { self.old.is_failing ≡ true → self.new.answering ≡ self.old.answering }
    {
        if self.is_failing || !self.held.is_empty() {
            return self.go_on(rt, clock, seconds);
        }
        if self.gather(rt, clock, seconds) {
            return Vec::new(self.alloc);
        }
        self.held = self.answering.take_said();
        if self.is_full() {
            return Vec::new(self.alloc);
        }
        self.hand_out(rt, clock)
    }

    fn tick(&mut self)
        ensures connections { self.new.answering.service.connections ≡ self.old.answering.service.connections }
        ensures asks { HasSameAsked self.old.answering.service self.new.answering.service }
        ensures waited { HaveWaited self.old.answering.service.waiting self.new.answering.service.waiting }
        ensures paused { HavePaused self.old.answering.service.replicas.pauses self.new.answering.service.replicas.pauses }
        ensures nodes { NodesHaveTicked self.old.answering.service.replicas self.new.answering.service.replicas }
        ensures said { self.new.answering.said ≡ self.old.answering.said }
        ensures lost { self.new.answering.lost ≡ self.old.answering.lost }
        ensures saver { self.new.saver ≡ self.old.saver }
        ensures held { self.new.held ≡ self.old.held }
        ensures failing { self.new.is_failing ≡ self.old.is_failing }
    {
        self.answering.tick();
    }

    fn has_work(&self) -> bool
        ensures no { result ≡ false → (self.now.is_failing ≡ true) ⊎ ((self.now.held.items ≡ []) × (self.now.answering.said ≡ []) × ((self.now.answering.service.queue ≡ []) ⊎ AllWait self.now.answering.service.waiting)) }
        ensures fine { result ≡ true → self.now.is_failing ≡ false }
        ensures yes { result ≡ true → (self.now.held.items ≢ []) ⊎ ((self.now.answering.said ≢ []) ⊎ ((proxy : ℕ) × IsFreeIn self.now.answering.service.waiting proxy)) }
    {
        !self.is_failing
            && (!self.held.is_empty() || self.answering.has_said() || self.answering.has_work())
    }

    fn is_waiting(&self) -> bool
        ensures failing { result ≡ false → self.now.is_failing ≡ false }
        ensures held { result ≡ false → self.now.held.items ≡ [] }
        ensures said { result ≡ false → self.now.answering.said ≡ [] }
        ensures service { result ≡ false → (self.now.answering.service.queue ≡ []) × NoneWaits self.now.answering.service.waiting }
        ensures up { result ≡ false → AreAllUpIn self.now.answering.service.replicas }
        ensures lost { result ≡ false → self.now.answering.lost ≡ [] }
    {
        self.is_failing
            || !self.held.is_empty()
            || self.answering.has_said()
            || self.answering.is_waiting()
    }
}
