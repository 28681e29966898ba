//! The host of an executor.

ghost use Rattle.std.specs.Prelude.{◌≡◌, ◌<◌, ◌≤◌, ◌*◌};

use crate::held::{hold, is_order};
use decrees::Letter;
use exec_lines::{Body, ExecutorRecord, Input};
use keeper::MemKeeper;
use slots::ExecutorSlot;
use std::alloc::Global;
use std::marker::Model;
use std::mem;
use std::sync::Wait;
use std::thread::Threads;
use workers::Workers;

/// An executor with the orders that wait for their turn. It cannot be dropped, since an executor cannot:
/// `end` ends it.
pub struct ExecutorHost {
    pub(crate) slot: ExecutorSlot,
    pub(crate) held: Vec<Letter<Body>>,
    /// What the last run of a job sent, until it is collected.
    sent: Vec<Letter<Body>>,
}

impl Model for ExecutorHost {
    ghost use Rattle.decrees.specs.contracts.node.Letter as letter;
    ghost use Rattle.exec_lines.specs.contracts.body.Body as body;
    ghost use Rattle.exec_lines.specs.contracts.state.State as state;
    ghost use Rattle.slots.specs.UpSlots.{executor_slot_code};
    ghost use Rattle.hosts.specs.Host.{HostView, host_code};

    ghost Value = { HostView };

    ghost coded = { host_code (executor_slot_code state.the_row.coded) (letter.the_row body.the_row).coded };

    ghost view = { λ h. record { slot = h.slot; held = h.held.items; sent = h.sent.items } };
}

impl ExecutorHost {
    ghost use Rattle.std.specs.Prelude.{◌≡◌, ◌<◌, ◌≤◌, ◌*◌, ◌++◌, ◌∷◌, [], true, is_some};
    ghost use Rattle.exec_lines.specs.declared.input.Input.TheVariants.{Cut};
    ghost use Rattle.slots.specs.declared.slot.Slot.TheVariants.{Down};
    ghost use Rattle.slots.specs.Slots.{nothing_kept};
    ghost use Rattle.slots.specs.Status.{node_at};
    ghost use Rattle.hosts.specs.Host.{HostSettles, HostTakes, HostRuns, HostReopens, HostCollects, is_order as of_order};
    ghost use Rattle.hosts.specs.Stops.{HostStops};

    /// The host of an executor that was never opened: it is down, and nothing is kept.
    pub fn unopened(alloc: Global) -> ExecutorHost
        ensures { result ≡ record { slot = Down nothing_kept; held = []; sent = [] } }
    {
        ExecutorHost {
            slot: ExecutorSlot::unopened(),
            held: Vec::new(alloc),
            sent: Vec::new(alloc),
        }
    }

    /// The host of an executor that is down, with this keeper.
    pub fn down(alloc: Global, keeper: MemKeeper<ExecutorRecord>) -> ExecutorHost
        ensures { result ≡ record { slot = Down keeper; held = []; sent = [] } }
    {
        ExecutorHost {
            slot: ExecutorSlot::down(keeper),
            held: Vec::new(alloc),
            sent: Vec::new(alloc),
        }
    }

    /// Opens the executor as number `id` of `2u + 1`, if it is down; the result is what it sends. It stays
    /// down if that is refused.
    pub fn open(&mut self, alloc: Global, u: u8, id: u8) -> Vec<Letter<Body>>
        requires few { u < 4 }
        requires member { id ≤ 2 * u }
        ensures { HostReopens u id self.old self.new result.items }
    {
        self.slot.restart(alloc, u, id)
    }

    /// The executor stops as by a crash, if it is up: it is down with its record. The orders that it holds and what was
    /// not collected stay.
    pub fn stop(&mut self)
        ensures { HostStops self.old self.new [] }
    {
        self.slot.crash();
    }

    /// Gives the executor a letter, or holds it if it is an order: whether that was done, and what the executor
    /// sends. False: it is an order, and it is lost, since `MOST_HELD` orders wait or there is no memory for it.
    pub fn take(&mut self, alloc: Global, letter: Letter<Body>) -> (bool, Vec<Letter<Body>>)
        ensures takes { HostTakes self.old letter self.new result.1.items }
        ensures held { result.0 ≡ true → of_order letter.body ≡ true → self.new.held ≡ self.old.held ++ letter ∷ [] }
    {
        if is_order(&letter) {
            let is_held = hold(&mut self.held, letter);
            return (is_held, Vec::new(alloc));
        }
        (true, self.slot.settle(alloc, Input::Letter(letter)))
    }

    /// The executor is to cut a batch, at this moment in seconds; the result is what it sends.
    pub fn cut(&mut self, alloc: Global, moment: u32) -> Vec<Letter<Body>>
        ensures { HostSettles self.old (Cut moment) self.new result.items }
    {
        self.slot.settle(alloc, Input::Cut(moment))
    }

    /// Runs the executor's job, if it has one, on at most so many threads. What it sends is collected by
    /// `collect`; what an earlier run sent and was not collected is lost.
    pub fn run<R: Threads + Wait + Sync>(&mut self, rt: &R, alloc: Global, workers: Workers)
        ensures { HostRuns self.old self.new }
    {
        self.sent = self.slot.run(rt, alloc, workers);
    }

    /// What the last run sent, once.
    pub fn collect(&mut self, alloc: Global) -> Vec<Letter<Body>>
        ensures { HostCollects self.old self.new result.items }
    {
        mem::replace(&mut self.sent, Vec::new(alloc))
    }

    /// Whether the executor is up.
    pub fn is_up(&self) -> bool
        ensures { result ≡ is_some (node_at self.now.slot) }
    {
        self.slot.node().is_some()
    }

    /// Ends it.
    pub fn end(self) {
        let ExecutorHost { slot, held, sent } = self;
        slot.end();
        drop(held);
        drop(sent);
    }
}
