//! A replica that stops, and is down with its record.

ghost use Rattle.std.specs.Prelude.{[]};
ghost use Rattle.hosts.specs.Stops.{HostStops};
ghost use Rattle.ensemble.specs.Nodes.{AtHost, AtVerifier};
ghost use Rattle.ensemble.specs.Calls.{VerifierCrashes};

use crate::ensemble::Ensemble;
use crate::nodes::Nodes;
use events::Replica;
use hosts::ExecutorHost;
use slots::VerifierSlot;

/// The executor of this number stops, if it is there.
fn stop_executor(executors: &mut Vec<ExecutorHost>, id: u8)
    ensures { AtHost HostStops id executors.old.items executors.new.items [] }
{
    if let Some(host) = executors.get_mut(usize::from(id)) {
        host.stop();
    }
}

/// The verifier of this number stops, if it is there.
fn stop_verifier(verifiers: &mut Vec<VerifierSlot>, id: u8)
    ensures { AtVerifier VerifierCrashes id verifiers.old.items verifiers.new.items [] }
{
    if let Some(slot) = verifiers.get_mut(usize::from(id)) {
        slot.crash();
    }
}

impl Nodes {
    ghost use Rattle.events.specs.declared.event.Replica.TheVariants as replica;
    ghost use Rattle.ensemble.specs.Calls.{IsStopped};

    /// The executor of this number stops, if it is there and up.
    pub fn stop_executor(&mut self, id: u8)
        ensures { IsStopped (replica.Executor id) self.old self.new }
    {
        stop_executor(&mut self.executors, id);
    }

    /// The verifier of this number stops, if it is there and up.
    pub fn stop_verifier(&mut self, id: u8)
        ensures { IsStopped (replica.Verifier id) self.old self.new }
    {
        stop_verifier(&mut self.verifiers, id);
    }
}

impl Ensemble {
    ghost use Rattle.std.specs.Prelude.{◌≡◌, false};
    ghost use Rattle.events.specs.declared.event.Replica.TheVariants as replica;
    ghost use Rattle.ensemble.specs.Ensemble.{KeepsLogs};
    ghost use Rattle.ensemble.specs.Nodes.{size_of};
    ghost use Rattle.ensemble.specs.Shown.{is_up_at};
    ghost use Rattle.ensemble.specs.Calls.{IsStopped, AllCollected};

    /// Stops an executor, if it is there and up.
    fn stop_executor(&mut self, id: u8)
        ensures logs { KeepsLogs self.old self.new }
        ensures refused { self.new.refused ≡ self.old.refused }
        ensures size { size_of self.new.nodes ≡ size_of self.old.nodes }
        ensures waits { AllCollected self.old.nodes → AllCollected self.new.nodes }
        ensures stops { IsStopped (replica.Executor id) self.old.nodes self.new.nodes }
    {
        self.nodes.stop_executor(id);
    }

    /// Stops a verifier, if it is there and up.
    fn stop_verifier(&mut self, id: u8)
        ensures logs { KeepsLogs self.old self.new }
        ensures refused { self.new.refused ≡ self.old.refused }
        ensures size { size_of self.new.nodes ≡ size_of self.old.nodes }
        ensures waits { AllCollected self.old.nodes → AllCollected self.new.nodes }
        ensures stops { IsStopped (replica.Verifier id) self.old.nodes self.new.nodes }
    {
        self.nodes.stop_verifier(id);
    }

    /// Stops the replica as by a crash, if it is there and up: it is down with its record, and what it has not saved is
    /// lost. `restart` opens it again. The letters that are under way to it stay so, and each other replica is as it was.
    #[tactic(auto, using(crate::proofs::StopLemmas::stopped_is_down))]
    pub fn stop(&mut self, replica: Replica)
        ensures logs { KeepsLogs self.old self.new }
        ensures refused { self.new.refused ≡ self.old.refused }
        ensures size { size_of self.new.nodes ≡ size_of self.old.nodes }
        ensures waits { AllCollected self.old.nodes → AllCollected self.new.nodes }
        ensures stops { IsStopped replica self.old.nodes self.new.nodes }
        ensures down { is_up_at self.new.nodes replica ≡ false }
    {
        match replica {
            Replica::Executor(id) => self.stop_executor(id),
            Replica::Verifier(id) => self.stop_verifier(id),
        }
    }
}
