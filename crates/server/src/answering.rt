//! The service, as the event loop uses it.

ghost use Rattle.std.specs.Prelude.{◌≡◌};
ghost use Rattle.server.specs.Answering.{IsLastMessage, IsSaidOf};

use event_loop::Serve;
use figures::Figures;
use loop_messages::{Heard, Said};
use service::{Fault, Service, ServiceRecord};
use std::alloc::Global;
use std::collections::VecDeque;
use std::marker::Model;
use std::mem;
use std::rt::Clock;
use std::sync::Wait;
use std::thread::Threads;

/// A connection that is to be closed, since memory ran out for what it was to be given.
#[derive(Clone, Copy)]
struct Lost {
    key: usize,
    number: u64,
}

/// The service, and what it has said since it last worked.
pub struct Answering {
    alloc: Global,
    service: Service,
    said: Vec<Said>,
    /// There is room for one of each connection.
    lost: VecDeque<Lost>,
}

/// No bytes, to a connection that is to be closed.
fn last(alloc: Global, key: usize, number: u64) -> Said
    ensures { IsLastMessage key number result }
{
    Said::last(alloc, key, number)
}

/// What a connection is told after the service heard a piece of it.
fn said_of(alloc: Global, key: usize, number: u64, heard: Result<Said, Fault>) -> Said
    ensures { IsSaidOf key number heard result }
{
    match heard {
        Ok(said) => said,
        Err(_) => last(alloc, key, number),
    }
}

impl Model for Answering {
    ghost use Rattle.service.specs.contracts.service.Service as of_service;
    ghost use Rattle.loop_messages.specs.contracts.message.Said as of_said;
    ghost use Rattle.server.specs.contracts.answering.Lost as of_lost;
    ghost use Rattle.server.specs.Answering.{AnsweringView, answering_code};

    ghost Value = { AnsweringView };

    ghost coded = { answering_code of_service.the_row.coded of_said.the_row.coded of_lost.the_row.coded };

    ghost view = { λ a. record { service = a.service; said = a.said.items; lost = a.lost.items } };
}

impl Answering {
    ghost use Rattle.std.specs.Prelude.{◌≡◌, ◌≢◌, ◌⊎◌, ◌++◌, ◌∷◌, [], map, length, true, false, IfOk, IfErr};
    ghost use Rattle.service.specs.Process.{kept_service};
    ghost use Rattle.service.specs.Record.{kept_in};
    ghost use Rattle.server.specs.Answering.{Says, SaysEach, Closings, HandsBytes, HandsLeft, HandsWritten};

    /// A service of which nothing was heard, for at most so many connections at once. If there is no memory for these
    /// the service is given back.
    pub fn new(alloc: Global, service: Service, most: usize) -> Result<Answering, Service>
        ensures made { IfOk result (λ a. a ≡ record { service = service; said = []; lost = [] }) }
        ensures back { IfErr result (λ s. s ≡ service) }
    {
        match VecDeque::with_capacity(alloc, most) {
            Ok(lost) => Ok(Answering {
                alloc,
                service,
                said: Vec::new(alloc),
                lost,
            }),
            Err(_) => Err(service),
        }
    }

    /// The service itself.
    pub fn into_service(self) -> Service
        ensures { result ≡ self.service }
    {
        let Answering {
            alloc: _,
            service,
            said,
            lost,
        } = self;
        drop(said);
        drop(lost);
        service
    }

    /// What was counted.
    pub fn figures(&mut self) -> Figures
        ensures same { self.new ≡ self.old }
    {
        self.service.figures()
    }

    /// Takes over what only the event loop and the system know, for `stats`.
    pub fn see(&mut self, seen: &Figures)
        ensures { self.new ≡ self.old }
    {
        self.service.see(seen);
    }

    /// What is kept of the service if its process ends now.
    pub fn record(&self) -> Result<ServiceRecord, Fault>
        ensures kept { IfOk result (λ r. kept_in self.now.service.connections.dialect r ≡ kept_service self.now.service) }
    {
        self.service.record(self.alloc)
    }

    /// Whether something is said that `work` is to hand out.
    pub fn has_said(&self) -> bool
        ensures no { result ≡ false → self.now.said ≡ [] }
        ensures yes { result ≡ true → self.now.said ≢ [] }
    {
        !self.said.is_empty()
    }

    /// How much is said that is to be handed out.
    pub fn said_count(&self) -> usize
        ensures { result ≡ length self.now.said }
    {
        self.said.len()
    }

    /// A piece of a connection comes.
    fn hear_bytes(&mut self, key: usize, number: u64, bytes: Vec<u8>)
        ensures { HandsBytes key number bytes.items self.old self.new }
    {
        let heard = self.service.hear(self.alloc, key, number, bytes);
        let said = said_of(self.alloc, key, number, heard);
        self.say(said);
    }

    /// So much of what a connection was given is written.
    fn hear_written(&mut self, key: usize, number: u64, count: usize)
        ensures { HandsWritten key number count self.old self.new }
    {
        if !self.service.written(key, number, count) {
            self.say(last(self.alloc, key, number));
        }
    }

    /// The connection has left.
    fn leave(&mut self, key: usize, number: u64)
        ensures { HandsLeft key number self.old self.new }
    {
        self.service.leave(key, number);
        self.lost.retain(|lost| lost.number != number);
    }

    /// One more is said. If memory for it runs out the connection is lost.
    fn say(&mut self, said: Said)
        ensures says { Says self.old said self.new }
        ensures lost { (self.new.lost ≡ self.old.lost) ⊎ (self.new.lost ≡ self.old.lost ++ record { key = said.key; number = said.number } ∷ []) }
    {
        if let Err(refused) = self.said.push(said) {
            let Said { key, number, .. } = refused.value;
            self.service.leave(key, number);
            let _ = self.lost.push_back(Lost { key, number });
        }
    }

    /// All of these are said.
    fn say_all(&mut self, given: Vec<Said>)
        ensures { SaysEach self.old given.items self.new }
    {
        for said in given {
            self.say(said);
        }
    }

    /// Tells each of those that are lost so, once. If memory runs out for one it stays lost.
    fn close_lost(&mut self)
        ensures { Closings self.old self.new }
    {
        for _ in 0..self.lost.len() {
            if let Some(lost) = self.lost.pop_front() {
                self.say(last(self.alloc, lost.key, lost.number));
            }
        }
    }
}

impl Answering {
    ghost use denote.Param.Send.{IsSync};
    ghost use Rattle.std.specs.Prelude.{◌≡◌, []};
    ghost use Rattle.server.specs.Answering.{HandsIn, DoesWhatIsDue};

    /// Does what is due, as `work`, but hands nothing out: what is said waits, in order.
    pub fn run<R: Threads + Wait + Sync, C: Clock>(&mut self, rt: &R, clock: &C, seconds: u32)
        requires { IsSync R.row }
        ensures { DoesWhatIsDue seconds self.old self.new }
    {
        self.close_lost();
        let given = self.service.work(rt, clock, self.alloc, seconds);
        self.say_all(given);
    }

    /// Hands out all that was said since this was last done, in order.
    pub fn take_said(&mut self) -> Vec<Said>
        ensures all { result.items ≡ self.old.said }
        ensures none { self.new.said ≡ [] }
        ensures service { self.new.service ≡ self.old.service }
        ensures lost { self.new.lost ≡ self.old.lost }
    {
        mem::replace(&mut self.said, Vec::new(self.alloc))
    }

    /// One message of the event loop is handed in. A connection that the service does not take is closed when it says
    /// something.
    fn hand_in(&mut self, one: Heard)
        ensures { HandsIn one self.old self.new }
    {
        match one {
            Heard::Came { key, number } => {
                let _ = self.service.come(self.alloc, key, number);
            }
            Heard::Bytes { key, number, bytes } => self.hear_bytes(key, number, bytes),
            Heard::Written { key, number, count } => self.hear_written(key, number, count),
            Heard::Left { key, number } => self.leave(key, number),
        }
    }
}

impl Serve for Answering {
    ghost use denote.Param.Send.{IsSync};
    ghost use Rattle.std.specs.Prelude.{◌≡◌, ◌⊎◌, ℕ, [], true, false};
    ghost use Rattle.service.specs.Steps.{NoneWaits};
    ghost use Rattle.service.specs.Owed.{AllWait, IsFreeIn};
    ghost use Rattle.service.specs.Ticks.{HaveWaited, HavePaused, NodesHaveTicked, HasSameAsked, AreAllUpIn};
    ghost use Rattle.server.specs.Answering.{HandsInAll, HandsOut};

    fn set_micros(&mut self, micros: u64)
        ensures { self.new ≡ self.old }
    {
        self.service.set_micros(micros);
    }

    fn hear(&mut self, heard: Vec<Heard>)
        ensures { HandsInAll heard.items self.old self.new }
    {
        for one in heard {
            self.hand_in(one);
        }
    }

    fn work<R: Threads + Wait + Sync, C: Clock>(
        &mut self,
        rt: &R,
        clock: &C,
        seconds: u32,
    ) -> Vec<Said>
        requires { IsSync R.row }
        ensures { HandsOut seconds self.old result.items self.new }
    {
        self.run(rt, clock, seconds);
        self.take_said()
    }

    fn tick(&mut self)
        ensures connections { self.new.service.connections ≡ self.old.service.connections }
        ensures asks { HasSameAsked self.old.service self.new.service }
        ensures waited { HaveWaited self.old.service.waiting self.new.service.waiting }
        ensures paused { HavePaused self.old.service.replicas.pauses self.new.service.replicas.pauses }
        ensures nodes { NodesHaveTicked self.old.service.replicas self.new.service.replicas }
        ensures said { self.new.said ≡ self.old.said }
        ensures lost { self.new.lost ≡ self.old.lost }
    {
        self.service.tick(self.alloc);
    }

    fn has_work(&self) -> bool
        ensures no { result ≡ false → (self.now.service.queue ≡ []) ⊎ AllWait self.now.service.waiting }
        ensures yes { result ≡ true → (proxy : ℕ) × IsFreeIn self.now.service.waiting proxy }
    {
        self.service.is_ready()
    }

    fn is_waiting(&self) -> bool
        ensures service { result ≡ false → (self.now.service.queue ≡ []) × NoneWaits self.now.service.waiting }
        ensures up { result ≡ false → AreAllUpIn self.now.service.replicas }
        ensures lost { result ≡ false → self.now.lost ≡ [] }
    {
        self.service.is_waiting() || !self.lost.is_empty()
    }
}
