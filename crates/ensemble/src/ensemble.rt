//! The replicas and their proxies, with what was asked and answered.

ghost use Rattle.std.specs.Prelude.{◌≡◌};

use crate::answer::Answer;
use crate::nodes::Nodes;
use crate::noted::Noted;
use crate::process_record::ProcessRecord;
use crate::progress::Progress;
use crate::refusing::refuse;
use crate::times::{Stopwatch, Times};
use events::Replica;
use ghost_log::GhostLog;
use housekeeping::Seen;
use proto::{Command, Fault, Reply};
use sessions::Request;
use std::alloc::Global;
use std::marker::Model;
use std::sync::Wait;
use std::thread::Threads;

/// All replicas, their proxies, and the letters that are under way. It cannot be dropped, since executors
/// cannot: `end` ends it. Proxies are numbered from 1, replicas from 0.
pub struct Ensemble {
    pub(crate) nodes: Nodes,
    pub(crate) progress: Progress,
    pub(crate) stopwatch: Stopwatch,
    /// Each request that was asked, and whether its reply is left out.
    pub(crate) asked: GhostLog<Request, bool>,
    /// Each answer: the proxy and the request's number, and the reply.
    pub(crate) answered: GhostLog<(u16, u64), Reply>,
    /// In which order requests were asked and answered, by the proxy and the request's number. Between them are the
    /// moments that were handed in, each under the proxy 0, which there is none of.
    pub(crate) order: GhostLog<(u16, u64), Noted>,
    /// What its process began with, if it began with what was kept of another one.
    pub(crate) found: GhostLog<ProcessRecord, bool>,
    /// How often something was refused.
    pub(crate) refused: u64,
}

impl Model for Ensemble {
    ghost use Rattle.ensemble.specs.contracts.nodes.Nodes as of_nodes;
    ghost use Rattle.sessions.specs.contracts.request.Request as of_request;
    ghost use Rattle.proto.specs.contracts.reply.Reply as of_reply;
    ghost use Rattle.ensemble.specs.contracts.noted.Noted as of_noted;
    ghost use Rattle.ensemble.specs.contracts.process_record.ProcessRecord as of_process;
    ghost use Rattle.ensemble.specs.Ensemble.{EnsembleView, ensemble_code, first_found};
    ghost use Rattle.ensemble.specs.Process.{IsEnsembleAfter};

    ghost Value = { EnsembleView };

    ghost coded = { ensemble_code of_nodes.the_row.coded of_request.the_row.coded of_reply.the_row.coded of_noted.the_row.coded of_process.the_row.coded };

    ghost view = { λ e. record { nodes = e.nodes; asked = e.asked.items; answered = e.answered.items; order = e.order.items; refused = e.refused; found = first_found e.found.items } };

    ghost invariant = { λ e. IsEnsembleAfter (first_found e.found.items) (record { nodes = e.nodes; asked = e.asked.items; answered = e.answered.items; order = e.order.items; refused = 0; found = first_found e.found.items }) };
}

impl Ensemble {
    ghost use Rattle.std.specs.Prelude.{◌≡◌, ◌<◌, ◌≤◌, ◌-◌, ◌^◌, ◌++◌, ◌∷◌, [], IfOk, IfErr, OnErr, IsTrue, ◌⊎◌, Err, true, false, length};
    ghost use Rattle.verifier.specs.declared.input.Input.TheVariants.{Suspect};
    ghost use Rattle.proto.specs.declared.command.Command.{Command};
    ghost use Rattle.ensemble.specs.Nodes.{IsFree, VerifierMoves, VerifierGets, size_of};
    ghost use Rattle.ensemble.specs.Shown.{is_free_at, is_up_at, latest_epoch};
    ghost use Rattle.events.specs.declared.event.Replica.TheVariants as replica;
    ghost use Rattle.ensemble.specs.Calls.{RefusedNothing, IsReopened, IsReopenedAndPosts, AllCollected};
    ghost use Rattle.ensemble.specs.Served.{IsUnderWay, letters_again, VerifierPosts};
    ghost use Rattle.memcached_spec.specs.Asked.{HasText};
    ghost use Rattle.ensemble.specs.declared.noted.Noted.TheVariants as noted;
    ghost use Rattle.ensemble.specs.Ensemble.{IsLogged, KeepsLogs, answer_log};
    ghost use Rattle.ensemble.specs.Process.{IsEnsembleAfter};

    /// What is there is what events lead a world to: that world is like it, what its clients were fed is
    /// just what was asked, and each answer was sent in it. So it is of an ensemble that was opened. One that was reopened
    /// is so with what was asked and answered before, in whatever ensemble its record was kept of. The call does nothing.
    pub fn shows(&self)
        ensures { IsEnsembleAfter self.now.found self.now }
    {
        let _ = &self.progress;
    }

    /// Whether the proxy of this number is there and has nothing outstanding, so that it may ask.
    pub fn is_free(&self, proxy: u16) -> bool
        ensures free { IsTrue result → IsFree self.now.nodes.proxies proxy }
        ensures exact { result ≡ is_free_at self.now.nodes.proxies proxy }
    {
        self.nodes.is_free(proxy)
    }

    /// How many proxies there are.
    pub fn proxies(&self) -> usize
        ensures { result ≡ length self.now.nodes.proxies }
    {
        self.nodes.proxies.len()
    }

    /// The proxy of this number, which is free, asks the command: the number of the request. `quiet`: the
    /// reply is left out of what the connection is given. The reply comes from `work`. The request is sent to the
    /// executor that leads, or to all if that is down. If there is no memory for its letters they are lost, which is
    /// counted (`refused`).
    ///
    /// After an error nothing has changed. Stopped: the proxy has no number left; NoMemory: an allocation
    /// failed.
    pub fn ask(
        &mut self,
        alloc: Global,
        proxy: u16,
        command: Command,
        quiet: bool,
    ) -> Result<u64, Fault>
        requires free { IsFree self.old.nodes.proxies proxy }
        requires text { HasText command quiet }
        ensures ok { IfOk result (λ number. IsLogged self.old.asked proxy number command quiet self.new.asked) }
        ensures found { self.new.found ≡ self.old.found }
        ensures answered { self.new.answered ≡ self.old.answered }
        ensures order { IfOk result (λ number. self.new.order ≡ self.old.order ++ ((proxy, number), noted.Asked) ∷ []) }
        ensures err { OnErr result (self.new ≡ self.old) }
        ensures counted { self.old.refused ≤ self.new.refused }
        ensures size { size_of self.new.nodes ≡ size_of self.old.nodes }
        ensures waits { AllCollected self.old.nodes → AllCollected self.new.nodes }
        ensures sent { IfOk result (λ number. self.new.refused ≡ self.old.refused → self.old.refused < 2 ^ 64 - 1 → IsUnderWay self.old.nodes self.new.nodes proxy number command) }
    {
        let request = self.nodes.ask(proxy, command, quiet)?;
        let number = request.number;
        self.asked = self.asked.and(&request, &quiet);
        self.order = self.order.and(&(proxy, number), &Noted::Asked);
        self.nodes.send(alloc, proxy, request, &mut self.refused);
        self.progress.is_at_rest = false;
        Ok(number)
    }

    /// What the proxy of this number has outstanding is sent to all executors once more, if it has something
    /// outstanding. If there is no memory for that it is lost, which is counted (`refused`).
    pub fn again(&mut self, alloc: Global, proxy: u16)
        ensures logs { KeepsLogs self.old self.new }
        ensures counted { self.old.refused ≤ self.new.refused }
        ensures size { size_of self.new.nodes ≡ size_of self.old.nodes }
        ensures waits { AllCollected self.old.nodes → AllCollected self.new.nodes }
        ensures sent { self.new.refused ≡ self.old.refused → self.old.refused < 2 ^ 64 - 1 → self.new.nodes.mail ≡ self.old.nodes.mail ++ letters_again self.old.nodes proxy }
    {
        self.nodes.again(alloc, proxy, &mut self.refused);
        self.progress.is_at_rest = false;
    }

    /// Tells the verifier of this number, if it is there and up, that the leader is suspected. If there is no memory
    /// for what it sends, that is lost, which is counted (`refused`).
    pub fn suspect(&mut self, alloc: Global, verifier: u8)
        ensures logs { KeepsLogs self.old self.new }
        ensures told { VerifierMoves (VerifierGets Suspect) verifier self.old.nodes self.new.nodes }
        ensures counted { self.old.refused ≤ self.new.refused }
        ensures size { size_of self.new.nodes ≡ size_of self.old.nodes }
        ensures waits { AllCollected self.old.nodes → AllCollected self.new.nodes }
        ensures sent { self.new.refused ≡ self.old.refused → self.old.refused < 2 ^ 64 - 1 → VerifierPosts (VerifierGets Suspect) verifier self.old.nodes self.new.nodes }
    {
        self.nodes.suspect(alloc, verifier, &mut self.refused);
        self.progress.is_at_rest = false;
    }

    /// Opens an executor, if it is there and down.
    fn open_executor(&mut self, alloc: Global, id: u8)
        ensures logs { KeepsLogs self.old self.new }
        ensures counted { self.old.refused ≤ self.new.refused }
        ensures size { size_of self.new.nodes ≡ size_of self.old.nodes }
        ensures waits { AllCollected self.old.nodes → AllCollected self.new.nodes }
        ensures opens { IsReopened (replica.Executor id) self.old.nodes self.new.nodes }
        ensures posted { RefusedNothing self.old.refused self.new.refused → IsReopenedAndPosts (replica.Executor id) self.old.nodes self.new.nodes }
    {
        self.nodes.open_executor(alloc, id, &mut self.refused);
        self.progress.is_at_rest = false;
    }

    /// Opens a verifier, if it is there and down.
    fn open_verifier(&mut self, alloc: Global, id: u8)
        ensures logs { KeepsLogs self.old self.new }
        ensures counted { self.old.refused ≤ self.new.refused }
        ensures size { size_of self.new.nodes ≡ size_of self.old.nodes }
        ensures waits { AllCollected self.old.nodes → AllCollected self.new.nodes }
        ensures opens { IsReopened (replica.Verifier id) self.old.nodes self.new.nodes }
        ensures posted { RefusedNothing self.old.refused self.new.refused → IsReopenedAndPosts (replica.Verifier id) self.old.nodes self.new.nodes }
    {
        self.nodes.open_verifier(alloc, id, &mut self.refused);
        self.progress.is_at_rest = false;
    }

    /// Opens the replica, if it is there and down.
    fn open_replica(&mut self, alloc: Global, replica: Replica)
        ensures logs { KeepsLogs self.old self.new }
        ensures counted { self.old.refused ≤ self.new.refused }
        ensures size { size_of self.new.nodes ≡ size_of self.old.nodes }
        ensures waits { AllCollected self.old.nodes → AllCollected self.new.nodes }
        ensures opens { IsReopened replica self.old.nodes self.new.nodes }
        ensures posted { RefusedNothing self.old.refused self.new.refused → IsReopenedAndPosts replica self.old.nodes self.new.nodes }
    {
        match replica {
            Replica::Executor(id) => self.open_executor(alloc, id),
            Replica::Verifier(id) => self.open_verifier(alloc, id),
        }
    }

    /// One thing more was refused.
    pub(crate) fn refuse(&mut self)
        ensures same { self.new ≡ record self.old { refused = self.new.refused } }
        ensures counted { self.old.refused ≤ self.new.refused }
        ensures more { self.old.refused < 2 ^ 64 - 1 → self.old.refused < self.new.refused }
    {
        refuse(&mut self.refused);
    }

    /// Opens the replica with its keeper, if it is there and down: whether it is up then. It goes on from its
    /// record, and what it sends is under way; each other replica is as it was. If it is not up then, or there is no
    /// memory for what it sends, that is counted (`refused`).
    pub fn restart(&mut self, alloc: Global, replica: Replica) -> bool
        ensures logs { KeepsLogs self.old self.new }
        ensures up { result ≡ is_up_at self.new.nodes replica }
        ensures counted { self.old.refused ≤ self.new.refused }
        ensures size { size_of self.new.nodes ≡ size_of self.old.nodes }
        ensures waits { AllCollected self.old.nodes → AllCollected self.new.nodes }
        ensures opened { self.new.refused ≡ self.old.refused → self.old.refused < 2 ^ 64 - 1 → result ≡ true }
        ensures only { IsReopened replica self.old.nodes self.new.nodes }
        ensures posted { RefusedNothing self.old.refused self.new.refused → IsReopenedAndPosts replica self.old.nodes self.new.nodes }
    {
        self.open_replica(alloc, replica);
        let is_up = self.is_up(replica);
        if !is_up {
            self.refuse();
        }
        is_up
    }

    /// Whether the replica is there and up.
    pub fn is_up(&self, replica: Replica) -> bool
        ensures { result ≡ is_up_at self.now.nodes replica }
    {
        match replica {
            Replica::Executor(id) => self.nodes.is_executor_up(id),
            Replica::Verifier(id) => match self.nodes.verifiers.get(usize::from(id)) {
                Some(slot) => slot.node().is_some(),
                None => false,
            },
        }
    }

    /// The latest epoch of the executors that are up: 1 if none is. Each Rollback raises it.
    pub fn epoch(&self) -> u64
        ensures { result ≡ latest_epoch self.now.nodes.executors }
    {
        self.nodes.epoch()
    }

    /// How often something was not done for want of memory, or since a bound was reached: letters or an order were
    /// lost, a replica that was to be opened is down, or `work` left something to be done. It stays at 2^64 - 1.
    pub fn refused(&self) -> u64
        ensures { result ≡ self.now.refused }
    {
        self.refused
    }

    /// How far it has come, for whoever waits for a reply. It is a figure: nothing is promised of it. A proxy asks again
    /// and suspects the leader by it, and a reply is right whenever a proxy does.
    pub fn seen(&self) -> Seen {
        self.progress.seen()
    }

    /// How long the parts of the way of batches took since this was last asked. None: no batch was run.
    pub fn take_times(&mut self) -> Option<Times>
        ensures { self.new ≡ self.old }
    {
        self.stopwatch.take()
    }

    /// Ends all replicas.
    pub fn end(self) {
        let Ensemble {
            nodes,
            progress,
            stopwatch: _,
            asked,
            answered,
            order,
            found,
            refused: _,
        } = self;
        nodes.end();
        drop(progress);
        drop(asked);
        drop(answered);
        drop(order);
        drop(found);
    }
}
