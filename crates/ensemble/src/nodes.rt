//! All nodes, and the letters that are under way.

ghost use Rattle.std.specs.Prelude.{◌≡◌, ◌<◌};
ghost use Rattle.ensemble.specs.Shown.{later_epoch};

use decrees::{Letter, Node};
use exec_lines::Body;
use hosts::ExecutorHost;
use proxies::Proxy;
use slots::VerifierSlot;
use std::collections::VecDeque;
use std::marker::Model;

/// All replicas, their proxies, and the letters that are under way. It cannot be dropped, since executors
/// cannot: `end` ends it. Each of its methods is one event at most.
pub struct Nodes {
    pub u: u8,
    pub proxies: Vec<Proxy>,
    pub executors: Vec<ExecutorHost>,
    pub verifiers: Vec<VerifierSlot>,
    pub mail: VecDeque<Letter<Body>>,
}

impl Model for Nodes {
    ghost use Rattle.std.specs.Prelude.{◌<◌};
    ghost use Rattle.proxies.specs.contracts.proxy.Proxy as proxy;
    ghost use Rattle.hosts.specs.contracts.executor_host.ExecutorHost as host;
    ghost use Rattle.verifier.specs.contracts.state.State as verifier;
    ghost use Rattle.slots.specs.UpSlots.{verifier_slot_code};
    ghost use Rattle.decrees.specs.contracts.node.Letter as letter;
    ghost use Rattle.exec_lines.specs.contracts.body.Body as body;
    ghost use Rattle.ensemble.specs.Nodes.{NodesView, AreNumbered, nodes_code};

    ghost Value = { NodesView };

    ghost coded = { nodes_code proxy.the_row.coded host.the_row.coded (verifier_slot_code verifier.the_row.coded) (letter.the_row body.the_row).coded };

    ghost view = { λ n. record { u = n.u; proxies = n.proxies.items; executors = n.executors.items; verifiers = n.verifiers.items; mail = n.mail.items } };

    ghost invariant = { λ n. (n.u < 4) × AreNumbered n.proxies.items };
}

/// The later one of these epochs.
fn later(latest: u64, epoch: Option<u64>) -> u64
    ensures { result ≡ later_epoch latest epoch }
{
    match epoch {
        Some(epoch) => latest.max(epoch),
        None => latest,
    }
}

/// Ends these executors.
pub fn end_executors(mut executors: Vec<ExecutorHost>) {
    while let Some(host) = executors.pop() {
        host.end();
    }
    executors.destroy_empty();
}

impl Nodes {
    ghost use Rattle.std.specs.Prelude.{◌≡◌, ◌<◌, ◌+◌, ◌*◌, slice_get};
    ghost use Rattle.ensemble.specs.Shown.{has_job_in, is_host_up, is_quiet as quiet, has_letters as letters, latest_epoch, leader_of};

    /// How many executors there are, and as many verifiers.
    pub fn members(&self) -> u8
        ensures { result ≡ 2 * self.now.u + 1 }
    {
        2 * self.u + 1
    }

    /// Whether the executor of this number is up and has a job.
    pub fn has_job(&self, id: u8) -> bool
        ensures { result ≡ has_job_in (slice_get self.now.executors id) }
    {
        match self.executors.get(usize::from(id)) {
            Some(host) => host.job_len().is_some(),
            None => false,
        }
    }

    /// Whether the executor of this number is up.
    pub fn is_executor_up(&self, id: u8) -> bool
        ensures { result ≡ is_host_up (slice_get self.now.executors id) }
    {
        match self.executors.get(usize::from(id)) {
            Some(host) => host.is_up(),
            None => false,
        }
    }

    /// The latest epoch of the executors that are up. The first is 1.
    pub fn epoch(&self) -> u64
        ensures { result ≡ latest_epoch self.now.executors }
    {
        let mut latest = 1u64;
        for host in &self.executors {
            latest = later(latest, host.epoch());
        }
        latest
    }

    /// The number of the executor that leads this epoch: they take turns.
    pub fn leader(&self) -> u8
        ensures leads { result ≡ leader_of self.now }
        ensures member { result < 2 * self.now.u + 1 }
    {
        let members = u64::from(self.members());
        let id = self.epoch().saturating_sub(1) % members;
        u8::try_from(id).unwrap_or(0)
    }

    /// Whether nothing is to be done at once: no letter is under way, no executor has a job, and no order is held
    /// that an executor could obey now.
    pub fn is_quiet(&self) -> bool
        ensures { result ≡ quiet self.now }
    {
        !self.has_letters() && !self.has_jobs() && !self.has_due()
    }

    /// Whether the first letter tells an executor of a decree.
    pub fn is_decree_next(&self) -> bool {
        match self.mail.front() {
            Some(letter) => match (letter.to, &letter.body) {
                (Node::Executor(_), Body::Ballot(_)) => true,
                _ => false,
            },
            None => false,
        }
    }

    /// Whether a letter is under way.
    pub fn has_letters(&self) -> bool
        ensures { result ≡ letters self.now }
    {
        !self.mail.is_empty()
    }

    /// Ends all of them.
    pub fn end(self) {
        let Nodes {
            u: _,
            proxies,
            executors,
            verifiers,
            mail,
        } = self;
        end_executors(executors);
        drop(proxies);
        drop(verifiers);
        drop(mail);
    }
}
