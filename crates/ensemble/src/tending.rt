//! What is done of one replica.

ghost use Rattle.std.specs.Prelude.{◌≡◌, ◌<◌, ◌≤◌, ◌*◌, [], IfSome, IfNone};
ghost use Rattle.exec_lines.specs.declared.input.Input.TheVariants as executor_input;
ghost use Rattle.verifier.specs.declared.input.Input.TheVariants as verifier_input;
ghost use Rattle.hosts.specs.Host.{HostSettles, HostReopens, HostCollects};
ghost use Rattle.hosts.specs.Due.{HostTakesDue};
ghost use Rattle.ensemble.specs.Nodes.{AtHost, AtVerifier, HostAdvances, VerifierGets, VerifierOpens, VerifierTrims};
ghost use Rattle.ensemble.specs.Trimming.{trim_place, VerifierTrimsDue};

use crate::nodes::Nodes;
use crate::posting::{post, post_ballots};
use decrees::{Ballot, Letter};
use exec_lines::Body;
use hosts::ExecutorHost;
use housekeeping::due_trim;
use slots::VerifierSlot;
use std::alloc::Global;
use verifier::Input;

/// The host of this number, if it is there, hands in the order whose turn has come: whether there was one, and
/// what is sent.
fn take_held(alloc: Global, executors: &mut Vec<ExecutorHost>, id: u8) -> (bool, Vec<Letter<Body>>)
    ensures advances { AtHost HostAdvances id executors.old.items executors.new.items result.1.items }
    ensures due { AtHost HostTakesDue id executors.old.items executors.new.items result.1.items }
{
    match executors.get_mut(usize::from(id)) {
        Some(host) => match host.take_held(alloc) {
            Some(sent) => (true, sent),
            None => (false, Vec::new(alloc)),
        },
        None => (false, Vec::new(alloc)),
    }
}

/// The executor of this number, if it is there, is to cut a batch: what it sends.
fn cut(alloc: Global, executors: &mut Vec<ExecutorHost>, id: u8, moment: u32) -> Vec<Letter<Body>>
    ensures { AtHost (λ h left sent. HostSettles h (executor_input.Cut moment) left sent) id executors.old.items executors.new.items result.items }
{
    match executors.get_mut(usize::from(id)) {
        Some(host) => host.cut(alloc, moment),
        None => Vec::new(alloc),
    }
}

/// What the executor of this number sent when it ran its job.
fn collect(alloc: Global, executors: &mut Vec<ExecutorHost>, id: u8) -> Vec<Letter<Body>>
    ensures { AtHost HostCollects id executors.old.items executors.new.items result.items }
{
    match executors.get_mut(usize::from(id)) {
        Some(host) => host.collect(alloc),
        None => Vec::new(alloc),
    }
}

/// The executor of this number is opened, if it is there: what it sends.
fn open_executor(
    alloc: Global,
    u: u8,
    executors: &mut Vec<ExecutorHost>,
    id: u8,
) -> Vec<Letter<Body>>
    requires few { u < 4 }
    requires member { id ≤ 2 * u }
    ensures { AtHost (λ h left sent. HostReopens u id h left sent) id executors.old.items executors.new.items result.items }
{
    match executors.get_mut(usize::from(id)) {
        Some(host) => host.open(alloc, u, id),
        None => Vec::new(alloc),
    }
}

/// The verifier of this number is opened, if it is there: what it sends.
fn open_verifier(
    alloc: Global,
    u: u8,
    verifiers: &mut Vec<VerifierSlot>,
    id: u8,
) -> Vec<Letter<Ballot>>
    requires few { u < 4 }
    requires member { id ≤ 2 * u }
    ensures { AtVerifier (VerifierOpens u id) id verifiers.old.items verifiers.new.items result.items }
{
    match verifiers.get_mut(usize::from(id)) {
        Some(slot) => slot.restart(alloc, u, id),
        None => Vec::new(alloc),
    }
}

/// The verifier of this number is told that the leader is suspected, if it is there: what it sends.
fn suspect(alloc: Global, verifiers: &mut Vec<VerifierSlot>, id: u8) -> Vec<Letter<Ballot>>
    ensures { AtVerifier (VerifierGets verifier_input.Suspect) id verifiers.old.items verifiers.new.items result.items }
{
    match verifiers.get_mut(usize::from(id)) {
        Some(slot) => slot.settle(alloc, Input::Suspect),
        None => Vec::new(alloc),
    }
}

/// The place up to which the verifier may forget decrees, if it is up and its log is long.
fn due(slot: &VerifierSlot) -> Option<u64>
    ensures { result ≡ trim_place slot.now }
{
    let node = slot.node()?;
    due_trim(node.start(), node.known())
}

/// The verifier forgets old decrees, if its log is long: what it sends.
fn trim(alloc: Global, slot: &mut VerifierSlot) -> Vec<Letter<Ballot>>
    ensures trims { VerifierTrims slot.old slot.new result.items }
    ensures due { VerifierTrimsDue slot.old slot.new result.items }
{
    match due(slot) {
        Some(place) => slot.settle(alloc, Input::Trim { place }),
        None => Vec::new(alloc),
    }
}

/// The verifier of this number does so, if it is there.
fn trim_at(alloc: Global, verifiers: &mut Vec<VerifierSlot>, id: u8) -> Vec<Letter<Ballot>>
    ensures trims { AtVerifier VerifierTrims id verifiers.old.items verifiers.new.items result.items }
    ensures due { AtVerifier VerifierTrimsDue id verifiers.old.items verifiers.new.items result.items }
{
    match verifiers.get_mut(usize::from(id)) {
        Some(slot) => trim(alloc, slot),
        None => Vec::new(alloc),
    }
}

impl Nodes {
    ghost use Rattle.std.specs.Prelude.{◌≡◌, ◌⊎◌, ◌<◌, ◌≤◌, ◌-◌, ◌^◌, false};
    ghost use Rattle.exec_lines.specs.declared.input.Input.TheVariants as executor_input;
    ghost use Rattle.verifier.specs.declared.input.Input.TheVariants as verifier_input;
    ghost use Rattle.hosts.specs.Host.{HostSettles, HostReopens, HostCollects};
    ghost use Rattle.ensemble.specs.Nodes.{HostMoves, VerifierMoves, HostAdvances, VerifierGets, VerifierOpens, VerifierTrims};
    ghost use Rattle.events.specs.declared.event.Replica.TheVariants as replica;
    ghost use Rattle.hosts.specs.Due.{HostTakesDue};
    ghost use Rattle.ensemble.specs.Calls.{HostPosts, RefusedNothing, IsReopened, IsReopenedAndPosts};
    ghost use Rattle.ensemble.specs.Served.{VerifierPosts, NoBatchAt};
    ghost use Rattle.ensemble.specs.Trimming.{VerifierTrimsDue};

    /// The executor of this number gets the order that its host holds, if its turn has come: whether it has.
    pub fn take_held(&mut self, alloc: Global, id: u8, refused: &mut u64) -> bool
        ensures moves { HostMoves HostAdvances id self.old self.new }
        ensures due { HostMoves HostTakesDue id self.old self.new }
        ensures counted { refused.old ≤ refused.new }
    {
        let (has_taken, sent) = take_held(alloc, &mut self.executors, id);
        post(&mut self.mail, sent, refused);
        has_taken
    }

    /// The executor of this number is to cut a batch, at this moment in seconds: whether anything was sent or
    /// is to be run now.
    pub fn cut(&mut self, alloc: Global, id: u8, moment: u32, refused: &mut u64) -> bool
        ensures moves { HostMoves (λ h left sent. HostSettles h (executor_input.Cut moment) left sent) id self.old self.new }
        ensures counted { refused.old ≤ refused.new }
        ensures nothing { result ≡ false → NoBatchAt id self.old self.new }
    {
        let sent = cut(alloc, &mut self.executors, id, moment);
        let has_sent = !sent.is_empty();
        post(&mut self.mail, sent, refused);
        has_sent || self.has_job(id)
    }

    /// What the executor of this number sent when it ran its job is under way.
    pub fn collect(&mut self, alloc: Global, id: u8, refused: &mut u64)
        ensures moves { HostMoves HostCollects id self.old self.new }
        ensures posted { RefusedNothing refused.old refused.new → HostPosts HostCollects id self.old self.new }
        ensures counted { refused.old ≤ refused.new }
    {
        let sent = collect(alloc, &mut self.executors, id);
        post(&mut self.mail, sent, refused);
    }

    /// The executor of this number is opened, if it is there and down.
    pub fn open_executor(&mut self, alloc: Global, id: u8, refused: &mut u64)
        ensures counted { refused.old ≤ refused.new }
        ensures moves { HostMoves (λ h left sent. HostReopens self.old.u id h left sent) id self.old self.new ⊎ (self.new ≡ self.old) }
        ensures opens { IsReopened (replica.Executor id) self.old self.new }
        ensures posted { RefusedNothing refused.old refused.new → IsReopenedAndPosts (replica.Executor id) self.old self.new }
    {
        if 2 * self.u < id {
            return;
        }
        let sent = open_executor(alloc, self.u, &mut self.executors, id);
        post(&mut self.mail, sent, refused);
    }

    /// The verifier of this number is opened, if it is there and down.
    pub fn open_verifier(&mut self, alloc: Global, id: u8, refused: &mut u64)
        ensures counted { refused.old ≤ refused.new }
        ensures moves { VerifierMoves (VerifierOpens self.old.u id) id self.old self.new ⊎ (self.new ≡ self.old) }
        ensures opens { IsReopened (replica.Verifier id) self.old self.new }
        ensures posted { RefusedNothing refused.old refused.new → IsReopenedAndPosts (replica.Verifier id) self.old self.new }
    {
        if 2 * self.u < id {
            return;
        }
        let sent = open_verifier(alloc, self.u, &mut self.verifiers, id);
        post_ballots(alloc, &mut self.mail, sent.as_slice(), refused);
    }

    /// The verifier of this number is told that the leader is suspected.
    pub fn suspect(&mut self, alloc: Global, id: u8, refused: &mut u64)
        ensures moves { VerifierMoves (VerifierGets verifier_input.Suspect) id self.old self.new }
        ensures counted { refused.old ≤ refused.new }
        ensures posted { refused.new ≡ refused.old → refused.old < 2 ^ 64 - 1 → VerifierPosts (VerifierGets verifier_input.Suspect) id self.old self.new }
    {
        let sent = suspect(alloc, &mut self.verifiers, id);
        post_ballots(alloc, &mut self.mail, sent.as_slice(), refused);
    }

    /// The verifier of this number forgets old decrees, if its log is long.
    pub fn trim(&mut self, alloc: Global, id: u8, refused: &mut u64)
        ensures moves { VerifierMoves VerifierTrims id self.old self.new }
        ensures due { VerifierMoves VerifierTrimsDue id self.old self.new }
        ensures counted { refused.old ≤ refused.new }
    {
        let sent = trim_at(alloc, &mut self.verifiers, id);
        post_ballots(alloc, &mut self.mail, sent.as_slice(), refused);
    }
}
