//! What is due after a tick.

ghost use Rattle.std.specs.Prelude.{◌≡◌, ◌<◌, ◌≤◌};
ghost use Rattle.ensemble.specs.Nodes.{size_of};
ghost use Rattle.service.specs.Ticks.{sent_again, waited_on, SetsPatience};
ghost use Rattle.service.specs.Steps.{KeepsWaits};
ghost use Rattle.service.specs.Owed.{KeepsOwed};

use crate::pool::Pool;
use crate::replicas::note_node;
use crate::service::Service;
use ensemble::{Ensemble, Replica};
use housekeeping::{Seen, Urge};
use std::alloc::Global;

/// The proxy in this slot asks again.
fn ask_again(alloc: Global, pool: &mut Pool, ensemble: &mut Ensemble, at: usize, seen: Seen)
    ensures after { SetsPatience (sent_again seen) at pool.old pool.new }
    ensures counted { ensemble.old.refused ≤ ensemble.new.refused }
    ensures waits { KeepsWaits pool.old pool.new }
    ensures owed { KeepsOwed pool.old pool.new }
    ensures asked { ensemble.new.asked ≡ ensemble.old.asked }
    ensures answered { ensemble.new.answered ≡ ensemble.old.answered }
    ensures order { ensemble.new.order ≡ ensemble.old.order }
    ensures found { ensemble.new.found ≡ ensemble.old.found }
    ensures size { size_of ensemble.new.nodes ≡ size_of ensemble.old.nodes }
{
    if let Some(proxy) = pool.ask_again(at, seen) {
        ensemble.again(alloc, proxy);
    }
}

/// What is due of the proxy in this slot: whether the leader is suspected.
fn tick_at(
    alloc: Global,
    pool: &mut Pool,
    ensemble: &mut Ensemble,
    at: usize,
    u: u8,
    seen: Seen,
) -> bool
    requires { u < 4 }
    ensures after { SetsPatience (waited_on u seen) at pool.old pool.new }
    ensures counted { ensemble.old.refused ≤ ensemble.new.refused }
    ensures waits { KeepsWaits pool.old pool.new }
    ensures owed { KeepsOwed pool.old pool.new }
    ensures asked { ensemble.new.asked ≡ ensemble.old.asked }
    ensures answered { ensemble.new.answered ≡ ensemble.old.answered }
    ensures order { ensemble.new.order ≡ ensemble.old.order }
    ensures found { ensemble.new.found ≡ ensemble.old.found }
    ensures size { size_of ensemble.new.nodes ≡ size_of ensemble.old.nodes }
{
    match pool.tick(at, u, seen) {
        Urge::Wait => false,
        Urge::Again => {
            ask_again(alloc, pool, ensemble, at, seen);
            false
        }
        Urge::Suspect => {
            ask_again(alloc, pool, ensemble, at, seen);
            true
        }
    }
}

impl Service {
    ghost use Rattle.std.specs.Prelude.{◌≡◌, ◌<◌, ◌≤◌, Bool, true, false, slice_get};
    ghost use Rattle.ensemble.specs.Nodes.{size_of};
    ghost use Rattle.service.specs.Ticks.{waited_on, is_up_in, SetsPatience, HaveWaited, NodeTicks, IsOpenedIf, OthersStay, HavePaused, NodesHaveTicked, HasSameAsked, AreAllUpIn};

    /// Whether the node of this index is up.
    fn is_node_up(&self, at: u8) -> bool
        ensures { result ≡ is_up_in self.now.replicas.ensemble.nodes at }
    {
        self.ensemble.is_up(self.nodes.replica(at))
    }

    /// Whether a node is down.
    pub(crate) fn is_any_down(&self) -> bool
        ensures { result ≡ false → AreAllUpIn self.now.replicas }
    {
        for at in 0..self.nodes.count() {
            if !self.is_node_up(at) {
                return true;
            }
        }
        false
    }

    /// Whether a proxy has something outstanding for which nobody waits.
    pub(crate) fn has_asked_for_nobody(&self) -> bool {
        for at in 0..self.pool.count() {
            if let Some(proxy) = self.pool.free_at(at) {
                if !self.ensemble.is_free(proxy) {
                    return true;
                }
            }
        }
        false
    }

    /// Opens the node of this index again if it is down and its pause has gone by.
    fn tick_node(&mut self, alloc: Global, at: u8)
        ensures connections { self.new.connections ≡ self.old.connections }
        ensures size { size_of self.new.replicas.ensemble.nodes ≡ size_of self.old.replicas.ensemble.nodes }
        ensures asks { HasSameAsked self.old self.new }
        ensures waiting { self.new.waiting ≡ self.old.waiting }
        ensures ticks { (due : Bool) × NodeTicks at (is_up_in self.old.replicas.ensemble.nodes at) self.old.replicas.pauses self.new.replicas.pauses due × IsOpenedIf due at self.old.replicas self.new.replicas }
        ensures others { OthersStay at self.old.replicas.ensemble.nodes self.new.replicas.ensemble.nodes }
        ensures counted { self.old.replicas.refused ≤ self.new.replicas.refused }
    {
        let replica = self.nodes.replica(at);
        let is_up = self.ensemble.is_up(replica);
        note_node(&mut self.counting.conditions.figures, replica, is_up);
        if self.nodes.tick(at, is_up) {
            let is_back = self.ensemble.restart(alloc, replica);
            note_node(&mut self.counting.conditions.figures, replica, is_back);
        }
    }

    /// Opens each node again that is down and whose pause has gone by.
    fn tick_nodes(&mut self, alloc: Global)
        ensures connections { self.new.connections ≡ self.old.connections }
        ensures size { size_of self.new.replicas.ensemble.nodes ≡ size_of self.old.replicas.ensemble.nodes }
        ensures asks { HasSameAsked self.old self.new }
        ensures waiting { self.new.waiting ≡ self.old.waiting }
        ensures nodes { NodesHaveTicked self.old.replicas self.new.replicas }
        ensures counted { self.old.replicas.refused ≤ self.new.replicas.refused }
    {
        for at in 0..self.nodes.count() {
            self.tick_node(alloc, at);
        }
    }

    /// Tells the next verifier that the leader is suspected. They are told one after the other, from the second on.
    fn suspect(&mut self, alloc: Global)
        ensures connections { self.new.connections ≡ self.old.connections }
        ensures size { size_of self.new.replicas.ensemble.nodes ≡ size_of self.old.replicas.ensemble.nodes }
        ensures asks { HasSameAsked self.old self.new }
        ensures waiting { self.new.waiting ≡ self.old.waiting }
        ensures paused { self.new.replicas.pauses ≡ self.old.replicas.pauses }
        ensures counted { self.old.replicas.refused ≤ self.new.replicas.refused }
    {
        self.suspicions = self.suspicions.wrapping_add(1);
        let members = u64::from(2 * self.u + 1);
        self.ensemble
            .suspect(alloc, (self.suspicions % members) as u8);
    }

    /// What is due of the proxy in this slot: whether the leader is suspected.
    fn tick_proxy(&mut self, alloc: Global, at: usize, u: u8, seen: Seen) -> bool
        requires { u < 4 }
        ensures connections { self.new.connections ≡ self.old.connections }
        ensures size { size_of self.new.replicas.ensemble.nodes ≡ size_of self.old.replicas.ensemble.nodes }
        ensures asks { HasSameAsked self.old self.new }
        ensures waits { SetsPatience (waited_on u seen) at self.old.waiting self.new.waiting }
        ensures paused { self.new.replicas.pauses ≡ self.old.replicas.pauses }
        ensures counted { self.old.replicas.refused ≤ self.new.replicas.refused }
    {
        tick_at(alloc, &mut self.pool, &mut self.ensemble, at, u, seen)
    }

    /// What is due of all proxies: whether the leader is suspected.
    fn tick_proxies(&mut self, alloc: Global) -> bool
        ensures connections { self.new.connections ≡ self.old.connections }
        ensures size { size_of self.new.replicas.ensemble.nodes ≡ size_of self.old.replicas.ensemble.nodes }
        ensures asks { HasSameAsked self.old self.new }
        ensures waited { HaveWaited self.old.waiting self.new.waiting }
        ensures paused { self.new.replicas.pauses ≡ self.old.replicas.pauses }
        ensures counted { self.old.replicas.refused ≤ self.new.replicas.refused }
    {
        let u = self.u;
        let seen = self.ensemble.seen();
        let mut is_suspected = false;
        for at in 0..self.pool.count() {
            if self.tick_proxy(alloc, at, u, seen) {
                is_suspected = true;
            }
        }
        is_suspected
    }

    /// The proxy in this slot asks again, if it has something outstanding and nobody waits for it: it had asked when the
    /// process before this one ended.
    fn ask_for_nobody(&mut self, alloc: Global, at: usize)
        ensures connections { self.new.connections ≡ self.old.connections }
        ensures size { size_of self.new.replicas.ensemble.nodes ≡ size_of self.old.replicas.ensemble.nodes }
        ensures asks { HasSameAsked self.old self.new }
        ensures waiting { self.new.waiting ≡ self.old.waiting }
        ensures paused { self.new.replicas.pauses ≡ self.old.replicas.pauses }
        ensures counted { self.old.replicas.refused ≤ self.new.replicas.refused }
    {
        if let Some(proxy) = self.pool.free_at(at) {
            if !self.ensemble.is_free(proxy) {
                self.ensemble.again(alloc, proxy);
            }
        }
    }

    /// So does each proxy.
    fn ask_for_gone(&mut self, alloc: Global)
        ensures connections { self.new.connections ≡ self.old.connections }
        ensures size { size_of self.new.replicas.ensemble.nodes ≡ size_of self.old.replicas.ensemble.nodes }
        ensures asks { HasSameAsked self.old self.new }
        ensures waiting { self.new.waiting ≡ self.old.waiting }
        ensures paused { self.new.replicas.pauses ≡ self.old.replicas.pauses }
        ensures counted { self.old.replicas.refused ≤ self.new.replicas.refused }
    {
        for at in 0..self.pool.count() {
            self.ask_for_nobody(alloc, at);
        }
    }

    /// What is due of the requests for which nobody waits: whether the leader is suspected. Replicas that were opened
    /// again with their records answer nothing until a leader is.
    fn tick_gone(&mut self, alloc: Global) -> bool
        ensures connections { self.new.connections ≡ self.old.connections }
        ensures size { size_of self.new.replicas.ensemble.nodes ≡ size_of self.old.replicas.ensemble.nodes }
        ensures asks { HasSameAsked self.old self.new }
        ensures waiting { self.new.waiting ≡ self.old.waiting }
        ensures paused { self.new.replicas.pauses ≡ self.old.replicas.pauses }
        ensures counted { self.old.replicas.refused ≤ self.new.replicas.refused }
    {
        if !self.has_asked_for_nobody() {
            return false;
        }
        let seen = self.ensemble.seen();
        let urge = self.nodes.gone.tick(self.u, seen);
        if urge == Urge::Wait {
            return false;
        }
        self.nodes.gone.ask_again(seen);
        self.ask_for_gone(alloc);
        urge == Urge::Suspect
    }

    /// What is due of all that was asked and not answered.
    fn tick_asked(&mut self, alloc: Global)
        ensures connections { self.new.connections ≡ self.old.connections }
        ensures size { size_of self.new.replicas.ensemble.nodes ≡ size_of self.old.replicas.ensemble.nodes }
        ensures asks { HasSameAsked self.old self.new }
        ensures waited { HaveWaited self.old.waiting self.new.waiting }
        ensures paused { self.new.replicas.pauses ≡ self.old.replicas.pauses }
        ensures counted { self.old.replicas.refused ≤ self.new.replicas.refused }
    {
        let is_suspected = self.tick_proxies(alloc);
        if self.tick_gone(alloc) || is_suspected {
            self.suspect(alloc);
        }
    }

    /// A tick, ten of which come in a second while something waits (`is_waiting`), also while requests come: a
    /// proxy that waits for long asks again, and then suspects the leader; a node that it finds down is opened again
    /// once its pause has gone by, and is up then, unless memory was refused, which is counted (`refused`). A node that
    /// it finds up is up. No new command is asked. `work` is to come after it.
    pub fn tick(&mut self, alloc: Global)
        ensures connections { self.new.connections ≡ self.old.connections }
        ensures size { size_of self.new.replicas.ensemble.nodes ≡ size_of self.old.replicas.ensemble.nodes }
        ensures asks { HasSameAsked self.old self.new }
        ensures waited { HaveWaited self.old.waiting self.new.waiting }
        ensures paused { HavePaused self.old.replicas.pauses self.new.replicas.pauses }
        ensures nodes { NodesHaveTicked self.old.replicas self.new.replicas }
        ensures counted { self.old.replicas.refused ≤ self.new.replicas.refused }
    {
        self.tick_asked(alloc);
        self.tick_nodes(alloc);
    }
}
