//! What is done of its own two replicas.

ghost use Rattle.std.specs.Prelude.{◌≡◌, []};
ghost use Rattle.ensemble.specs.Nodes.{AtHost, HostMoves};
ghost use Rattle.site_laws.specs.Site.{RunsOnly};
ghost use Rattle.member.specs.Tending.{member_of as of_member};

use crate::member::Member;
use ensemble::{Nodes, Replica};
use hosts::ExecutorHost;
use std::alloc::Global;
use std::sync::Wait;
use std::thread::Threads;
use workers::Workers;

/// How many threads make the digests of a batch at once.
const MOST_DIGESTERS: usize = 4;

/// One thread works on a batch, and several make its digests: the executor has the machine to itself.
fn workers() -> Workers {
    let one = Workers::new(1);
    let workers = one.and_then(|one| one.with_digests(MOST_DIGESTERS));
    let Some(workers) = workers else {
        // 1 and 4 are between 1 and 16.
        unreachable!()
    };
    workers
}

/// The number of the member whose replica this is.
fn member_of(replica: Replica) -> u8
    ensures { result ≡ of_member replica }
{
    match replica {
        Replica::Executor(id) => id,
        Replica::Verifier(id) => id,
    }
}

/// The executor of this number, if it is there, runs its job, if it has one.
fn run_at<R: Threads + Wait + Sync>(
    rt: &R,
    alloc: Global,
    executors: &mut Vec<ExecutorHost>,
    id: u8,
)
    ensures { AtHost RunsOnly id executors.old.items executors.new.items [] }
{
    if let Some(host) = executors.get_mut(usize::from(id)) {
        host.run(rt, alloc, workers());
    }
}

/// The executor of this number, if it is there, runs its job, if it has one. What that sends is not under way yet.
fn run<R: Threads + Wait + Sync>(rt: &R, alloc: Global, nodes: &mut Nodes, id: u8)
    ensures { HostMoves RunsOnly id nodes.old nodes.new }
{
    run_at(rt, alloc, &mut nodes.executors, id);
}

impl Member {
    ghost use Rattle.std.specs.Prelude.{◌≡◌, ◌≢◌, ◌<◌, ◌≤◌, ◌-◌, ◌^◌, ◌++◌, ◌∷◌, [], true, false, slice_get};
    ghost use Rattle.verifier.specs.declared.input.Input.TheVariants.{Suspect};
    ghost use Rattle.events.specs.declared.event.Replica.TheVariants as replica;
    ghost use Rattle.ensemble.specs.Nodes.{VerifierMoves, VerifierGets};
    ghost use Rattle.ensemble.specs.Shown.{is_up_at, has_job_in};
    ghost use Rattle.ensemble.specs.Calls.{IsReopened};
    ghost use Rattle.ensemble.specs.Served.{VerifierPosts};
    ghost use Rattle.ensemble.specs.Trimming.{VerifierTrimsDue};
    ghost use Rattle.site_laws.specs.Site.{Notes};
    ghost use Rattle.member.specs.Member.{whose};
    ghost use Rattle.member.specs.Tending.{member_of};
    ghost use Rattle.member.specs.Working.{NoBatchHere};

    /// Its executor gets the order that is held, if its turn has come: whether it has.
    pub(crate) fn take_held(&mut self, alloc: Global) -> bool
        ensures shown { self.new.shown ≡ self.old.shown }
        ensures whose { whose self.new ≡ whose self.old }
        ensures leaving { self.new.leaving ≡ self.old.leaving }
        ensures counted { self.old.refused ≤ self.new.refused }
    {
        self.nodes.take_held(alloc, self.id, &mut self.refused)
    }

    /// Its executor runs its job, if it has one. What that sends is not under way yet.
    fn run<R: Threads + Wait + Sync>(&mut self, rt: &R, alloc: Global)
        ensures shown { self.new.shown ≡ self.old.shown }
        ensures whose { whose self.new ≡ whose self.old }
        ensures leaving { self.new.leaving ≡ self.old.leaving }
        ensures counted { self.old.refused ≤ self.new.refused }
    {
        run(rt, alloc, &mut self.nodes, self.id);
    }

    /// What its executor sent when it ran its job is under way.
    fn collect(&mut self, alloc: Global)
        ensures shown { self.new.shown ≡ self.old.shown }
        ensures whose { whose self.new ≡ whose self.old }
        ensures leaving { self.new.leaving ≡ self.old.leaving }
        ensures counted { self.old.refused ≤ self.new.refused }
    {
        self.nodes.collect(alloc, self.id, &mut self.refused);
    }

    /// Its executor runs its job, and what that sends is under way: whether it had a job.
    pub(crate) fn run_job<R: Threads + Wait + Sync>(&mut self, rt: &R, alloc: Global) -> bool
        ensures shown { self.new.shown ≡ self.old.shown }
        ensures whose { whose self.new ≡ whose self.old }
        ensures leaving { self.new.leaving ≡ self.old.leaving }
        ensures counted { self.old.refused ≤ self.new.refused }
    {
        if !self.nodes.has_job(self.id) {
            return false;
        }
        self.run(rt, alloc);
        self.collect(alloc);
        true
    }

    /// Its executor, if it leads, cuts a batch of this moment, in seconds: whether that led to anything.
    pub(crate) fn cut(&mut self, alloc: Global, moment: u32) -> bool
        ensures nothing { result ≡ false → NoBatchHere self.new }
        ensures shown { self.new.shown ≡ self.old.shown ++ Notes moment ∷ [] }
        ensures whose { whose self.new ≡ whose self.old }
        ensures leaving { self.new.leaving ≡ self.old.leaving }
        ensures counted { self.old.refused ≤ self.new.refused }
    {
        self.log.noted(moment);
        self.nodes.cut(alloc, self.id, moment, &mut self.refused)
    }

    /// Its verifier forgets old decrees, if its log is long. `work` does so too.
    pub fn trim(&mut self, alloc: Global)
        ensures due { VerifierMoves VerifierTrimsDue self.old.id self.old.nodes self.new.nodes }
        ensures shown { self.new.shown ≡ self.old.shown }
        ensures whose { whose self.new ≡ whose self.old }
        ensures leaving { self.new.leaving ≡ self.old.leaving }
        ensures counted { self.old.refused ≤ self.new.refused }
    {
        self.nodes.trim(alloc, self.id, &mut self.refused);
    }

    /// Tells its verifier, if it is up, that the leader is suspected. If there is no memory for what it sends, that is lost,
    /// which is counted (`refused`).
    pub fn suspect(&mut self, alloc: Global)
        ensures told { VerifierMoves (VerifierGets Suspect) self.old.id self.old.nodes self.new.nodes }
        ensures sent { self.new.refused ≡ self.old.refused → self.old.refused < 2 ^ 64 - 1 → VerifierPosts (VerifierGets Suspect) self.old.id self.old.nodes self.new.nodes }
        ensures shown { self.new.shown ≡ self.old.shown }
        ensures whose { whose self.new ≡ whose self.old }
        ensures leaving { self.new.leaving ≡ self.old.leaving }
        ensures counted { self.old.refused ≤ self.new.refused }
    {
        self.nodes.suspect(alloc, self.id, &mut self.refused);
    }

    /// Opens its executor, if it is down.
    pub(crate) fn open_executor(&mut self, alloc: Global)
        ensures opens { IsReopened (replica.Executor self.old.id) self.old.nodes self.new.nodes }
        ensures proxies { self.new.nodes.proxies ≡ self.old.nodes.proxies }
        ensures shown { self.new.shown ≡ self.old.shown }
        ensures whose { whose self.new ≡ whose self.old }
        ensures leaving { self.new.leaving ≡ self.old.leaving }
        ensures counted { self.old.refused ≤ self.new.refused }
    {
        self.nodes.open_executor(alloc, self.id, &mut self.refused);
    }

    /// Opens its verifier, if it is down.
    pub(crate) fn open_verifier(&mut self, alloc: Global)
        ensures opens { IsReopened (replica.Verifier self.old.id) self.old.nodes self.new.nodes }
        ensures proxies { self.new.nodes.proxies ≡ self.old.nodes.proxies }
        ensures shown { self.new.shown ≡ self.old.shown }
        ensures whose { whose self.new ≡ whose self.old }
        ensures leaving { self.new.leaving ≡ self.old.leaving }
        ensures counted { self.old.refused ≤ self.new.refused }
    {
        self.nodes.open_verifier(alloc, self.id, &mut self.refused);
    }

    /// Opens the replica, which is its own, if it is down.
    fn open_own(&mut self, alloc: Global, replica: Replica)
        requires { member_of replica ≡ self.old.id }
        ensures opens { IsReopened replica self.old.nodes self.new.nodes }
        ensures shown { self.new.shown ≡ self.old.shown }
        ensures whose { whose self.new ≡ whose self.old }
        ensures leaving { self.new.leaving ≡ self.old.leaving }
        ensures counted { self.old.refused ≤ self.new.refused }
    {
        match replica {
            Replica::Executor(_) => self.open_executor(alloc),
            Replica::Verifier(_) => self.open_verifier(alloc),
        }
    }

    /// Opens the replica, if it is its own and down.
    fn open_if_own(&mut self, alloc: Global, replica: Replica)
        ensures opens { member_of replica ≡ self.old.id → IsReopened replica self.old.nodes self.new.nodes }
        ensures others { member_of replica ≢ self.old.id → self.new.nodes ≡ self.old.nodes }
        ensures shown { self.new.shown ≡ self.old.shown }
        ensures whose { whose self.new ≡ whose self.old }
        ensures leaving { self.new.leaving ≡ self.old.leaving }
        ensures counted { self.old.refused ≤ self.new.refused }
    {
        if member_of(replica) == self.id {
            self.open_own(alloc, replica);
        }
    }

    /// Opens the replica, if it is its own and down: whether it is up then. It goes on from its record. If it is not up then,
    /// or there is no memory for what it sends, that is counted (`refused`).
    pub fn restart(&mut self, alloc: Global, replica: Replica) -> bool
        ensures opens { member_of replica ≡ self.old.id → IsReopened replica self.old.nodes self.new.nodes }
        ensures others { member_of replica ≢ self.old.id → self.new.nodes ≡ self.old.nodes }
        ensures up { result ≡ is_up_at self.new.nodes replica }
        ensures opened { self.new.refused ≡ self.old.refused → self.old.refused < 2 ^ 64 - 1 → result ≡ true }
        ensures shown { self.new.shown ≡ self.old.shown }
        ensures whose { whose self.new ≡ whose self.old }
        ensures leaving { self.new.leaving ≡ self.old.leaving }
        ensures counted { self.old.refused ≤ self.new.refused }
    {
        self.open_if_own(alloc, replica);
        let is_up = self.is_up(replica);
        if !is_up {
            self.refuse();
        }
        is_up
    }
}
