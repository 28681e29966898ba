//! The client proxies, and what they wait for.

ghost use Rattle.std.specs.Prelude.{◌≡◌, ◌<◌, ◌-◌, Some, None, IfSome, IfNone, true, false, slice_get, slice_set};
ghost use Rattle.service.specs.Steps.{NoneWaits, is_request_of, owed_of, TakesOne, TakesWaitAt, SetsWaitAt};
ghost use Rattle.service.specs.Owed.{AllWait, OneWaits};
ghost use Rattle.housekeeping.specs.Patience.{after_tick};
ghost use Rattle.service.specs.Ticks.{sent_again, with_patience, urge_in, urge_at, SetsPatience};

use crate::assignment::Outstanding;
use housekeeping::{Seen, Urge};
use std::alloc::{AllocError, Global};
use std::marker::Model;

/// The proxies, by their numbers from 1. The slot of a proxy is its number less 1. Contracts see what they wait
/// for.
pub struct Pool {
    waiting: Vec<Option<Outstanding>>,
}

impl Drop for Pool {
    fn drop(self) {
        let Pool { waiting: _ } = self;
    }
}

impl Model for Pool {
    ghost use Rattle.std.specs.Prelude.{List, Option, ◌<◌, ◌^◌, length};
    ghost use Rattle.service.specs.declared.assignment.Outstanding.{Outstanding};

    ghost Value = { List (Option Outstanding) };

    ghost view = { λ p. p.waiting.items };

    ghost invariant = { λ p. length p.waiting.items < 2 ^ 16 };
}

/// The proxy in this slot waits for this.
fn wait_at(waiting: &mut Vec<Option<Outstanding>>, at: usize, outstanding: Outstanding)
    ensures { waiting.new.items ≡ slice_set waiting.old.items at (Some outstanding) }
{
    if let Some(slot) = waiting.get_mut(at) {
        *slot = Some(outstanding);
    }
}

/// Whether it is the request of this number of the proxy.
fn is_request(slot: &Option<Outstanding>, proxy: u16, number: u64) -> bool
    ensures { result ≡ is_request_of proxy number slot.now }
{
    match slot {
        Some(outstanding) => {
            outstanding.assignment.proxy == proxy && outstanding.assignment.number == number
        }
        None => false,
    }
}

/// Takes what is there, if it is the request of this number of the proxy.
fn take_one(slot: &mut Option<Outstanding>, proxy: u16, number: u64) -> Option<Outstanding>
    ensures { TakesOne proxy number slot.old slot.new result }
{
    if is_request(slot, proxy, number) {
        slot.take()
    } else {
        None
    }
}

/// The request of this number of the proxy in this slot, if that waits for it, which it does no longer.
fn take_at(
    waiting: &mut Vec<Option<Outstanding>>,
    at: usize,
    proxy: u16,
    number: u64,
) -> Option<Outstanding>
    ensures { TakesWaitAt at proxy number waiting.old.items waiting.new.items result }
{
    match waiting.get_mut(at) {
        Some(slot) => take_one(slot, proxy, number),
        None => None,
    }
}

/// One more tick for what is there: what is due.
fn tick_one(slot: &mut Option<Outstanding>, u: u8, seen: Seen) -> Urge
    requires { u < 4 }
    ensures owed { owed_of slot.new ≡ owed_of slot.old }
    ensures after { slot.new ≡ with_patience (λ p. after_tick u p seen) slot.old }
    ensures due { result ≡ urge_in u seen slot.old }
{
    match slot {
        Some(outstanding) => outstanding.patience.tick(u, seen),
        None => Urge::Wait,
    }
}

/// One more tick for the proxy in this slot: what is due.
fn tick_at(waiting: &mut Vec<Option<Outstanding>>, at: usize, u: u8, seen: Seen) -> Urge
    requires { u < 4 }
    ensures sets { SetsWaitAt at waiting.old.items waiting.new.items }
    ensures after { SetsPatience (λ p. after_tick u p seen) at waiting.old.items waiting.new.items }
    ensures due { result ≡ urge_at u seen (slice_get waiting.old.items at) }
{
    match waiting.get_mut(at) {
        Some(slot) => tick_one(slot, u, seen),
        None => Urge::Wait,
    }
}

/// What is there is asked again: the number of its proxy.
fn ask_one(slot: &mut Option<Outstanding>, seen: Seen) -> Option<u16>
    ensures owed { owed_of slot.new ≡ owed_of slot.old }
    ensures after { slot.new ≡ with_patience (sent_again seen) slot.old }
{
    match slot {
        Some(outstanding) => {
            outstanding.patience.ask_again(seen);
            Some(outstanding.assignment.proxy)
        }
        None => None,
    }
}

/// The proxy in this slot asks again: its number.
fn ask_at(waiting: &mut Vec<Option<Outstanding>>, at: usize, seen: Seen) -> Option<u16>
    ensures sets { SetsWaitAt at waiting.old.items waiting.new.items }
    ensures after { SetsPatience (sent_again seen) at waiting.old.items waiting.new.items }
{
    match waiting.get_mut(at) {
        Some(slot) => ask_one(slot, seen),
        None => None,
    }
}

/// The slot of the proxy of this number.
fn slot_of(proxy: u16) -> usize
    ensures { result ≡ proxy - 1 }
{
    usize::from(proxy.saturating_sub(1))
}

/// The slot of the first proxy that waits for nothing.
fn first_free(waiting: &[Option<Outstanding>]) -> Option<usize>
    ensures some { IfSome result (λ at. slice_get waiting.now at ≡ Some None) }
    ensures none { IfNone result (AllWait waiting.now) }
{
    for at in 0..waiting.len() {
        if waiting[at].is_none() {
            return Some(at);
        }
    }
    None
}

/// Whether a proxy waits.
fn any_waits(waiting: &Vec<Option<Outstanding>>) -> bool
    ensures no { result ≡ false → NoneWaits waiting.now.items }
    ensures yes { result ≡ true → OneWaits waiting.now.items }
{
    for at in 0..waiting.len() {
        if waiting[at].is_some() {
            return true;
        }
    }
    false
}

impl Pool {
    ghost use Rattle.std.specs.Prelude.{◌≡◌, ◌<◌, ◌-◌, Some, true, false, length, slice_get, slice_set, IfOk, IfSome, IfNone};
    ghost use Rattle.housekeeping.specs.Patience.{after_tick};
    ghost use Rattle.service.specs.Ticks.{sent_again, urge_at, SetsPatience};
    ghost use Rattle.service.specs.Steps.{KeepsWaits, AddsWait, EndsWait, NoneWaits, TakesWaitAt, SetsWaitAt};
    ghost use Rattle.service.specs.Owed.{IsFreeIn, AllWait, OneWaits};

    /// So many proxies, all free.
    pub fn new(alloc: Global, count: u16) -> Result<Pool, AllocError>
        ensures { IfOk result (λ pool. NoneWaits pool) }
    {
        Ok(Pool {
            waiting: vec![in alloc; None; usize::from(count)]?,
        })
    }

    /// How many proxies there are.
    pub fn count(&self) -> usize
        ensures { result ≡ length self.now }
    {
        self.waiting.len()
    }

    /// The number of the first proxy that waits for nothing. `None`: each waits.
    pub fn free(&self) -> Option<u16>
        ensures some { IfSome result (λ proxy. IsFreeIn self.now proxy) }
        ensures none { IfNone result (AllWait self.now) }
    {
        let at = first_free(self.waiting.as_slice())?;
        Some((at + 1) as u16)
    }

    /// The number of the proxy in this slot, if it is there and waits for nothing.
    pub fn free_at(&self, at: usize) -> Option<u16>
        ensures { IfSome result (λ proxy. IsFreeIn self.now proxy) }
    {
        match self.waiting.get(at) {
            Some(None) => Some((at + 1) as u16),
            _ => None,
        }
    }

    /// Whether a proxy waits for a reply.
    pub fn is_waiting(&self) -> bool
        ensures no { result ≡ false → NoneWaits self.now }
        ensures yes { result ≡ true → OneWaits self.now }
    {
        any_waits(&self.waiting)
    }

    /// The proxy of the assignment waits for the reply to it.
    pub fn wait_for(&mut self, outstanding: Outstanding)
        ensures adds { AddsWait self.old outstanding.assignment self.new }
        ensures at { self.new ≡ slice_set self.old (outstanding.assignment.proxy - 1) (Some outstanding) }
    {
        let at = slot_of(outstanding.assignment.proxy);
        wait_at(&mut self.waiting, at, outstanding);
    }

    /// The request of this number of the proxy is answered: what it was. The proxy is free again. `None`, and
    /// nothing changes: the proxy does not wait for that.
    pub fn answered(&mut self, proxy: u16, number: u64) -> Option<Outstanding>
        ensures ends { EndsWait self.old proxy number self.new result }
        ensures at { TakesWaitAt (proxy - 1) proxy number self.old self.new result }
    {
        take_at(&mut self.waiting, slot_of(proxy), proxy, number)
    }

    /// One more tick for the proxy in this slot, with `2u + 1` executors and the server so far: what is due.
    pub fn tick(&mut self, at: usize, u: u8, seen: Seen) -> Urge
        requires { u < 4 }
        ensures keeps { KeepsWaits self.old self.new }
        ensures sets { SetsWaitAt at self.old self.new }
        ensures after { SetsPatience (λ p. after_tick u p seen) at self.old self.new }
        ensures due { result ≡ urge_at u seen (slice_get self.old at) }
    {
        tick_at(&mut self.waiting, at, u, seen)
    }

    /// The proxy in this slot asks again, and the server is so far: its number. `None`: it waits for nothing.
    pub fn ask_again(&mut self, at: usize, seen: Seen) -> Option<u16>
        ensures keeps { KeepsWaits self.old self.new }
        ensures sets { SetsWaitAt at self.old self.new }
        ensures after { SetsPatience (sent_again seen) at self.old self.new }
    {
        ask_at(&mut self.waiting, at, seen)
    }
}
