//! Orders whose turn has come.

ghost use Rattle.std.specs.Prelude.{◌≡◌, IfSome, IfNone, is_some, Contains, [], MatchOption};
ghost use Rattle.hosts.specs.Host.{HostForgets, HostObeys, LettersAreAmong};
ghost use Rattle.hosts.specs.Due.{order_for, HostTakesDue};
ghost use Rattle.hosts.specs.Orders.{is_busy as busy, awaited_of, has_due as due, has_due_for, StayHeld};

use crate::executor_host::ExecutorHost;
use crate::held::{has_order, take_order};
use decrees::Letter;
use exec_lines::{Body, Input, State};
use rollback::MOST_MEMBERS;
use slots::ExecutorSlot;
use std::alloc::Global;

/// Whether it executes a batch, or its chain has no room.
fn is_busy(state: &State) -> bool
    ensures { result ≡ busy state.now }
{
    MOST_MEMBERS <= state.report().chain || state.next_work().is_some()
}

/// The epoch and the number of the order that the executor could obey now: it is up, it executes nothing, and
/// its chain has room.
fn awaited(slot: &ExecutorSlot) -> Option<(u64, u64)>
    ensures { result ≡ awaited_of slot.now }
{
    let state = slot.node()?.state();
    if is_busy(state) {
        return None;
    }
    let report = state.report();
    let tip = report.number.saturating_add(report.chain as u64);
    Some((report.epoch, tip.saturating_add(1)))
}

/// Takes the order that the executor could obey now, if it is held. Orders whose turn is over are let go.
fn take_due(slot: &ExecutorSlot, held: &mut Vec<Letter<Body>>) -> Option<Letter<Body>>
    ensures among { LettersAreAmong held.new.items held.old.items }
    ensures taken { IfSome result (λ order. Contains held.old.items order) }
    ensures due { is_some result ≡ has_due_for (awaited_of slot.now) held.old.items }
    ensures first { result ≡ order_for (awaited_of slot.now) held.old.items }
    ensures later { StayHeld (awaited_of slot.now) held.old.items held.new.items }
{
    let (epoch, number) = awaited(slot)?;
    take_order(held, epoch, number)
}

impl ExecutorHost {
    /// Whether an order is held that the executor could obey now.
    pub fn has_due(&self) -> bool
        ensures { result ≡ due self.now }
    {
        match awaited(&self.slot) {
            Some((epoch, number)) => has_order(self.held.as_slice(), epoch, number),
            None => false,
        }
    }

    /// Gives the executor the order that it waits for, if it is held; the result is what the executor sends.
    /// Of several orders for that turn it gets the first. Orders whose turn is over are let go.
    pub fn take_held(&mut self, alloc: Global) -> Option<Vec<Letter<Body>>>
        ensures none { IfNone result (HostForgets self.old self.new) }
        ensures some { IfSome result (λ sent. HostObeys self.old self.new sent.items) }
        ensures taken { is_some result ≡ due self.old }
        ensures turn { MatchOption result (HostTakesDue self.old self.new []) (λ sent. HostTakesDue self.old self.new sent.items) }
        ensures later { StayHeld (awaited_of self.old.slot) self.old.held self.new.held }
    {
        let order = take_due(&self.slot, &mut self.held)?;
        Some(self.slot.settle(alloc, Input::Letter(order)))
    }
}
