ghost use Rattle.std.specs.Prelude.{◌≡◌, ◌*◌, ◌-◌, ◌^◌, ◌<◌, ◌≤◌, ◌⊎◌, Some, None, IfOk, IfErr, IsOk, OnErr, OnOk, Err, IsErr, IsTrue, not, true, false, []};
ghost use Rattle.exec_lines.specs.Record.{executor_text};
ghost use Rattle.exec_lines.specs.Lines.{resumed};
ghost use Rattle.exec_node.specs.Executor.{StoredExecutor};
ghost use Rattle.keeper.specs.Kept.{TriesToSave};

use crate::record::read_back;
use decrees::Letter;
use exec_lines::{Body, ExecutorRecord, Input, Job, Outcome, State};
use keeper::{Keeper, save_record};
use proto::Fault;
use round::Gate;
use states::Version;
use std::alloc::Global;
use std::marker::Model;
use std::sync::Wait;
use std::thread::Threads;
use workers::Workers;

/// What the keeper's record gives, if it has one, and in which version it is.
fn stored<K: Keeper<ExecutorRecord>>(
    alloc: Global,
    u: u8,
    id: u8,
    keeper: &K,
) -> Option<Result<(Version, State), Fault>>
    ensures { StoredExecutor u id (K.saved keeper.now) result }
{
    match keeper.load() {
        None => None,
        Some(found) => Some(read_back(alloc, u, id, found)),
    }
}

/// Saves the record of this state. If a failure could not be counted it is Stopped at once.
fn save<K: Keeper<ExecutorRecord>>(
    alloc: Global,
    u: u8,
    id: u8,
    state: &State,
    keeper: &mut K,
) -> Result<(), Fault>
    ensures tries { TriesToSave K.saved K.failed K.told (executor_text u id state.now) keeper.old keeper.new result }
    ensures no_memory { result ≡ Err Fault.NoMemory → K.failed keeper.new ≡ K.failed keeper.old }
    ensures stopped { result ≡ Err Fault.Stopped → (K.failed keeper.old < K.failed keeper.new) ⊎ (K.failed keeper.old ≡ 2 ^ 64 - 1) }
    ensures only { IfErr result (λ fault. (fault ≡ Fault.NoMemory) ⊎ (fault ≡ Fault.Stopped)) }
{
    let record = state.record(alloc, u, id)?;
    save_record(record, keeper)
}

/// The letters of an executor that goes on from a record of version 1, whose state is saved as a record
/// of today before they are given.
fn renewed<K: Keeper<ExecutorRecord>>(
    alloc: Global,
    u: u8,
    id: u8,
    state: &State,
    keeper: &mut K,
) -> Result<Vec<Letter<Body>>, Fault>
    requires { u < 4 }
    ensures letters { IfOk result (λ letters. letters.items ≡ (resumed u id state.now).letters) }
    ensures tries { TriesToSave K.saved K.failed K.told (executor_text u id state.now) keeper.old keeper.new result }
    ensures no_memory { result ≡ Err Fault.NoMemory → K.failed keeper.new ≡ K.failed keeper.old }
    ensures stopped { result ≡ Err Fault.Stopped → ((K.failed keeper.old < K.failed keeper.new) ⊎ (K.failed keeper.old ≡ 2 ^ 64 - 1)) ⊎ (state.now.known ≡ 2 ^ 64 - 1) }
    ensures only { IfErr result (λ fault. (fault ≡ Fault.NoMemory) ⊎ (fault ≡ Fault.Stopped)) }
{
    let letters = state.resumed(alloc, u, id)?;
    save(alloc, u, id, state, keeper)?;
    Ok(letters)
}

/// An executor. It cannot be dropped, since its chain cannot: it is ended by `end`, which gives its
/// keeper back.
pub struct ExecNode<K: Keeper<ExecutorRecord>> {
    id: u8,
    u: u8,
    state: State,
    stopped: bool,
    keeper: K,
}

impl<K: Keeper<ExecutorRecord>> Model for ExecNode<K> {
    ghost use Rattle.std.specs.Prelude.{◌<◌, not};
    ghost use Rattle.exec_lines.specs.contracts.state.State as kept;
    ghost use Rattle.exec_node.specs.Executor.{ExecutorView, executor_view_code};

    ghost Value = { ExecutorView };

    ghost coded = { executor_view_code kept.the_row.coded };

    ghost view = { λ e. record { id = e.id; u = e.u; state = e.state; up = not e.stopped; saved = K.saved e.keeper; failures = K.failed e.keeper; told = K.told e.keeper } };

    ghost invariant = { λ e. e.u < 4 };
}

impl<K: Keeper<ExecutorRecord>> ExecNode<K> {
    ghost use Rattle.std.specs.Prelude.{◌≡◌, ◌*◌, ◌-◌, ◌^◌, ◌<◌, ◌≤◌, ◌⊎◌, Some, None, IfOk, IfErr, IsOk, IsSome, OnErr, OnOk, Ok, Err, IsErr, IsTrue, MatchOption, not, true, false, []};
    ghost use Rattle.std.specs.Borrow.{sem};
    ghost use Rattle.exec_lines.specs.Step.{fits_a_line, is_refused};
    ghost use Rattle.states.specs.declared.version.Version.TheVariants.{First, Second};
    ghost use Rattle.exec_node.specs.Executor.{StoredExecutor, OpensExecutor, IsNoExecutorRecord, IsCountedRecord, IsToBeSaved, executor_handled, executor_outcome, executor_record_after, IsExecutorAtLimit, RanJob};
    ghost use Rattle.exec_lines.specs.Job.{job_of};
    ghost use Rattle.exec_node.specs.Lent.{LendsExecutorKeeper};
    ghost use Rattle.keeper.specs.Kept.{CountsFailures};
    ghost use Rattle.exec_lines.specs.State.{executor_left};

    /// Opens the executor `id` of `2u + 1`. If the keeper has no record it is new, and its first
    /// record is saved. Else it goes on from its record: it tells the tokens of its tentative states, and
    /// asks the others for what it does not know. A record of today is left as it is; one of version 1,
    /// whose states keep their tokens, is saved as one of today before any letter is given.
    ///
    /// BadRecord: the record is not one of this executor. Stopped: there was no record, or one of
    /// version 1, and its save failed, or that failure could not be counted; or by its record it knows
    /// 2^64 - 1 decrees. NoMemory: an allocation failed, and no save failed. A refused call hands the
    /// keeper back with the record as before; one that had a record of today is handed back untouched.
    /// Whether the next save is set to fail stays as it was, unless a save failed, which spends it.
    pub fn open(
        alloc: Global,
        u: u8,
        id: u8,
        keeper: K,
    ) -> Result<(ExecNode<K>, Vec<Letter<Body>>), (Fault, K)>
        requires few { u < 4 }
        requires member { id ≤ 2 * u }
        ensures opened { IfOk result (λ opened. OpensExecutor u id (K.saved keeper) (K.failed keeper) (K.told keeper) opened.0 opened.1.items) }
        ensures as_told { IsToBeSaved u id (K.saved keeper) → IsTrue (K.told keeper) → IsErr result }
        ensures unreadable { IfErr result (λ refused. refused.0 ≡ Fault.BadRecord → IsNoExecutorRecord u id (K.saved keeper)) }
        ensures stopped { IfErr result (λ refused. refused.0 ≡ Fault.Stopped → (IsToBeSaved u id (K.saved keeper) × ((K.failed keeper < K.failed refused.1) ⊎ (K.failed keeper ≡ 2 ^ 64 - 1))) ⊎ IsCountedRecord u id (K.saved keeper)) }
        ensures none_failed { IfErr result (λ refused. refused.0 ≡ Fault.NoMemory → K.failed refused.1 ≡ K.failed keeper) }
        ensures untouched { (IsToBeSaved u id (K.saved keeper) → ⊥) → IfErr result (λ refused. refused.1 ≡ keeper) }
        ensures saved { IfErr result (λ refused. K.saved refused.1 ≡ K.saved keeper) }
        ensures failures { IfErr result (λ refused. CountsFailures (K.failed keeper) (K.told keeper) (K.failed refused.1) (K.told refused.1)) }
        ensures only { IfErr result (λ refused. (refused.0 ≡ Fault.NoMemory) ⊎ (refused.0 ≡ Fault.BadRecord) ⊎ (refused.0 ≡ Fault.Stopped)) }
    {
        match stored(alloc, u, id, &keeper) {
            None => ExecNode::begin(alloc, u, id, keeper),
            Some(Ok((Version::First, state))) => ExecNode::renew(alloc, u, id, state, keeper),
            Some(Ok((Version::Second, state))) => ExecNode::go_on(alloc, u, id, state, keeper),
            Some(Err(fault)) => Err((fault, keeper)),
        }
    }

    fn begin(
        alloc: Global,
        u: u8,
        id: u8,
        mut keeper: K,
    ) -> Result<(ExecNode<K>, Vec<Letter<Body>>), (Fault, K)>
        requires few { u < 4 }
        requires no_record { K.saved keeper ≡ None }
        ensures opened { IfOk result (λ opened. OpensExecutor u id None (K.failed keeper) (K.told keeper) opened.0 opened.1.items) }
        ensures as_told { IsTrue (K.told keeper) → IsErr result }
        ensures only { IfErr result (λ refused. (refused.0 ≡ Fault.NoMemory) ⊎ (refused.0 ≡ Fault.Stopped)) }
        ensures stopped { IfErr result (λ refused. refused.0 ≡ Fault.Stopped → (K.failed keeper < K.failed refused.1) ⊎ (K.failed keeper ≡ 2 ^ 64 - 1)) }
        ensures none_failed { IfErr result (λ refused. refused.0 ≡ Fault.NoMemory → K.failed refused.1 ≡ K.failed keeper) }
        ensures saved { IfErr result (λ refused. K.saved refused.1 ≡ K.saved keeper) }
        ensures failures { IfErr result (λ refused. CountsFailures (K.failed keeper) (K.told keeper) (K.failed refused.1) (K.told refused.1)) }
    {
        match State::first(alloc) {
            Err(_) => Err((Fault::NoMemory, keeper)),
            Ok(state) => match save(alloc, u, id, &state, &mut keeper) {
                Err(fault) => {
                    state.end();
                    Err((fault, keeper))
                }
                Ok(()) => {
                    let node = ExecNode {
                        id,
                        u,
                        state,
                        stopped: false,
                        keeper,
                    };
                    Ok((node, Vec::new(alloc)))
                }
            },
        }
    }

    /// Goes on from a record of version 1.
    #[tactic(auto, using(crate::proofs::OpenLemmas::renews, crate::proofs::OpenLemmas::counted_record))]
    fn renew(
        alloc: Global,
        u: u8,
        id: u8,
        state: State,
        mut keeper: K,
    ) -> Result<(ExecNode<K>, Vec<Letter<Body>>), (Fault, K)>
        requires few { u < 4 }
        requires stored { StoredExecutor u id (K.saved keeper) (Some (Ok (First, state))) }
        ensures opened { IfOk result (λ opened. OpensExecutor u id (K.saved keeper) (K.failed keeper) (K.told keeper) opened.0 opened.1.items) }
        ensures as_told { IsTrue (K.told keeper) → IsErr result }
        ensures only { IfErr result (λ refused. (refused.0 ≡ Fault.NoMemory) ⊎ (refused.0 ≡ Fault.Stopped)) }
        ensures stopped { IfErr result (λ refused. refused.0 ≡ Fault.Stopped → ((K.failed keeper < K.failed refused.1) ⊎ (K.failed keeper ≡ 2 ^ 64 - 1)) ⊎ IsCountedRecord u id (K.saved keeper)) }
        ensures none_failed { IfErr result (λ refused. refused.0 ≡ Fault.NoMemory → K.failed refused.1 ≡ K.failed keeper) }
        ensures saved { IfErr result (λ refused. K.saved refused.1 ≡ K.saved keeper) }
        ensures failures { IfErr result (λ refused. CountsFailures (K.failed keeper) (K.told keeper) (K.failed refused.1) (K.told refused.1)) }
    {
        match renewed(alloc, u, id, &state, &mut keeper) {
            Err(fault) => {
                state.end();
                Err((fault, keeper))
            }
            Ok(letters) => {
                let node = ExecNode {
                    id,
                    u,
                    state,
                    stopped: false,
                    keeper,
                };
                Ok((node, letters))
            }
        }
    }

    /// Goes on from a record of today.
    #[tactic(auto, using(crate::proofs::OpenLemmas::opens, crate::proofs::OpenLemmas::counted_record))]
    fn go_on(
        alloc: Global,
        u: u8,
        id: u8,
        state: State,
        keeper: K,
    ) -> Result<(ExecNode<K>, Vec<Letter<Body>>), (Fault, K)>
        requires few { u < 4 }
        requires stored { StoredExecutor u id (K.saved keeper) (Some (Ok (Second, state))) }
        ensures opened { IfOk result (λ opened. OpensExecutor u id (K.saved keeper) (K.failed keeper) (K.told keeper) opened.0 opened.1.items) }
        ensures only { IfErr result (λ refused. (refused.0 ≡ Fault.NoMemory) ⊎ ((refused.0 ≡ Fault.Stopped) × IsCountedRecord u id (K.saved keeper))) }
        ensures untouched { IfErr result (λ refused. refused.1 ≡ keeper) }
    {
        match state.resumed(alloc, u, id) {
            Err(fault) => {
                state.end();
                Err((fault, keeper))
            }
            Ok(letters) => {
                let node = ExecNode {
                    id,
                    u,
                    state,
                    stopped: false,
                    keeper,
                };
                Ok((node, letters))
            }
        }
    }

    /// Saves the record if the outcome asks for it, and gives the outcome's letters.
    fn keep(&mut self, alloc: Global, outcome: Outcome) -> Result<Vec<Letter<Body>>, Fault>
        ensures done { OnOk result (self.new ≡ record self.old { saved = executor_record_after self.old (executor_left self.old.state outcome) }) }
        ensures letters { IfOk result (λ letters. letters ≡ outcome.letters) }
        ensures unsaved { outcome.saves ≡ false → IsOk result }
        ensures as_told { IsTrue self.old.told → IsTrue outcome.saves → IsErr result }
        ensures same { OnErr result ((self.new.id ≡ self.old.id) × (self.new.u ≡ self.old.u)) }
        ensures old_record { OnErr result (self.new.saved ≡ self.old.saved) }
        ensures failures { CountsFailures self.old.failures self.old.told self.new.failures self.new.told }
        ensures no_memory { result ≡ Err Fault.NoMemory → self.new.failures ≡ self.old.failures }
        ensures stopped { result ≡ Err Fault.Stopped → (self.old.failures < self.new.failures) ⊎ (self.old.failures ≡ 2 ^ 64 - 1) }
        ensures only { IfErr result (λ fault. (fault ≡ Fault.NoMemory) ⊎ (fault ≡ Fault.Stopped)) }
    {
        let Outcome { saves, letters } = outcome;
        if saves {
            save(alloc, self.u, self.id, &self.state, &mut self.keeper)?;
        }
        Ok(letters)
    }

    /// Does the step of the input, saves what has to be saved, and gives the letters.
    fn step_and_save(&mut self, alloc: Global, input: Input) -> Result<Vec<Letter<Body>>, Fault>
        ensures done { IfOk result (λ letters. self.new ≡ executor_handled self.old input) }
        ensures letters { IfOk result (λ letters. letters.items ≡ (executor_outcome self.old input).letters) }
        ensures fits_none { IsTrue (not (fits_a_line self.old.u self.old.id self.old.state input)) → IsTrue (not (is_refused self.old.state input)) → IsOk result }
        ensures refused { IsTrue (is_refused self.old.state input) → (result ≡ Err Fault.Unfit) × (self.new ≡ self.old) }
        ensures as_told { IsTrue self.old.told → IsTrue (executor_outcome self.old input).saves → IsErr result }
        ensures same { OnErr result ((self.new.id ≡ self.old.id) × (self.new.u ≡ self.old.u)) }
        ensures old_record { OnErr result (self.new.saved ≡ self.old.saved) }
        ensures failures { CountsFailures self.old.failures self.old.told self.new.failures self.new.told }
        ensures unsaved { (executor_outcome self.old input).saves ≡ false → self.new.failures ≡ self.old.failures }
        ensures no_memory { result ≡ Err Fault.NoMemory → self.new.failures ≡ self.old.failures }
        ensures stopped { result ≡ Err Fault.Stopped → (self.old.failures < self.new.failures) ⊎ IsExecutorAtLimit self.old input }
        ensures unfit { result ≡ Err Fault.Unfit → IsTrue (is_refused self.old.state input) }
        ensures only { IfErr result (λ fault. (fault ≡ Fault.NoMemory) ⊎ (fault ≡ Fault.Stopped) ⊎ (fault ≡ Fault.Unfit)) }
    {
        let outcome = self.state.step(alloc, self.u, self.id, input)?;
        let letters = self.keep(alloc, outcome)?;
        Ok(letters)
    }

    /// Does the step of the input, and gives its letters in order. What has to be saved is saved
    /// before they leave. An input that fits no line of the step changes nothing.
    ///
    /// Unfit: a tentative state was handed in that is not of its work; it is undone, nothing has
    /// changed, and the executor goes on. After any other error it is stopped for good, and its record
    /// is the old one; if it was stopped before, nothing of it changes, and what was handed in is
    /// let go. Stopped: it was stopped before, or a save failed, or a counter is at its limit;
    /// NoMemory: an allocation failed in this call, and no save. A save that is set to fail does, and
    /// none fails if the step saves nothing. Whether the next save is set to fail stays as it was,
    /// unless a save failed, which spends it.
    pub fn handle(&mut self, alloc: Global, input: Input) -> Result<Vec<Letter<Body>>, Fault>
        ensures done { IfOk result (λ letters. self.new ≡ executor_handled self.old input) }
        ensures letters { IfOk result (λ letters. letters.items ≡ (executor_outcome self.old input).letters) }
        ensures fits_none { IsTrue self.old.up → IsTrue (not (fits_a_line self.old.u self.old.id self.old.state input)) → IsTrue (not (is_refused self.old.state input)) → IsOk result }

        // Only if a tentative state is refused.
        ensures refused { IsTrue self.old.up → IsTrue (is_refused self.old.state input) → (result ≡ Err Fault.Unfit) × (self.new ≡ self.old) }
        ensures unfit { result ≡ Err Fault.Unfit → IsTrue self.old.up × IsTrue (is_refused self.old.state input) }

        // After an error.
        ensures ends { OnErr result ((result ≡ Err Fault.Unfit) ⊎ IsTrue (not self.new.up)) }
        ensures same { OnErr result ((self.new.id ≡ self.old.id) × (self.new.u ≡ self.old.u)) }
        ensures old_record { OnErr result (self.new.saved ≡ self.old.saved) }
        ensures failures { CountsFailures self.old.failures self.old.told self.new.failures self.new.told }
        ensures unsaved { (executor_outcome self.old input).saves ≡ false → self.new.failures ≡ self.old.failures }

        // When each comes.
        ensures stopped_before { IsTrue (not self.old.up) → result ≡ Err Fault.Stopped }
        ensures unchanged { IsTrue (not self.old.up) → self.new ≡ self.old }
        ensures as_told { IsTrue self.old.told → IsTrue (executor_outcome self.old input).saves → IsErr result }
        ensures save_failed { self.old.failures < self.new.failures → result ≡ Err Fault.Stopped }
        ensures stopped { result ≡ Err Fault.Stopped → IsTrue (not self.old.up) ⊎ (self.old.failures < self.new.failures) ⊎ IsExecutorAtLimit self.old input }
        ensures only { IfErr result (λ fault. (fault ≡ Fault.NoMemory) ⊎ (fault ≡ Fault.Stopped) ⊎ (fault ≡ Fault.Unfit)) }
    {
        if self.stopped {
            input.spend();
            return Err(Fault::Stopped);
        }
        let letters = self.step_and_save(alloc, input);
        self.stopped = match &letters {
            Ok(_) | Err(Fault::Unfit) => false,
            Err(_) => true,
        };
        letters
    }

    /// The work, if no step of it was made: its base, its batch, and whether it runs in batch order.
    /// It takes no memory.
    pub fn job(&self) -> Option<Job>
        ensures { MatchOption result (job_of self.now.state.work ≡ None)
            (λ job. job_of self.now.state.work ≡ Some (record { base = job.base.now.state; batch = job.batch.now; ordered = job.ordered })) }
    {
        self.state.job()
    }

    /// Runs the job, saves what it led to, and gives the letters.
    fn run_and_save<R: Threads + Wait + Sync, G: Gate + Sync>(
        &mut self,
        rt: &R,
        alloc: Global,
        workers: Workers,
        gate: &G,
    ) -> Result<Vec<Letter<Body>>, Fault>
        ensures ran { IfOk result (λ letters. RanJob self.old (job_of self.old.state.work) self.new letters.items) }
        ensures none { job_of self.old.state.work ≡ None → IsOk result }
        ensures as_told { IsTrue self.old.told → IsSome (job_of self.old.state.work) → IsErr result }
        ensures same { OnErr result ((self.new.id ≡ self.old.id) × (self.new.u ≡ self.old.u)) }
        ensures old_record { OnErr result (self.new.saved ≡ self.old.saved) }
        ensures failures { CountsFailures self.old.failures self.old.told self.new.failures self.new.told }
        ensures no_memory { result ≡ Err Fault.NoMemory → self.new.failures ≡ self.old.failures }
        ensures stopped { result ≡ Err Fault.Stopped → (self.old.failures < self.new.failures) ⊎ (self.old.failures ≡ 2 ^ 64 - 1) }
        ensures only { IfErr result (λ fault. (fault ≡ Fault.NoMemory) ⊎ (fault ≡ Fault.Stopped)) }
    {
        let outcome = self.state.run(rt, alloc, self.u, self.id, workers, gate)?;
        let letters = self.keep(alloc, outcome)?;
        Ok(letters)
    }

    /// Runs the job, if there is one, on at most so many threads at once, completes with what it makes,
    /// saves the record, and gives the letters. What it makes is what some steps and ends of groups make
    /// of it. Without a job nothing changes, and there are no letters. The gate sees each step.
    ///
    /// Stopped: it was stopped before, or the save failed, or its failure could not be counted.
    /// NoMemory: an allocation failed, and no save. After any error it is stopped for good, and its
    /// record is the old one. Whether the next save is set to fail stays as it was, unless a save
    /// failed, which spends it.
    pub fn run<R: Threads + Wait + Sync, G: Gate + Sync>(
        &mut self,
        rt: &R,
        alloc: Global,
        workers: Workers,
        gate: &G,
    ) -> Result<Vec<Letter<Body>>, Fault>
        ensures ran { IfOk result (λ letters. RanJob self.old (job_of self.old.state.work) self.new letters.items) }
        ensures none { IsTrue self.old.up → job_of self.old.state.work ≡ None → IsOk result }

        // After an error.
        ensures ends { OnErr result (IsTrue (not self.new.up)) }
        ensures same { OnErr result ((self.new.id ≡ self.old.id) × (self.new.u ≡ self.old.u)) }
        ensures old_record { OnErr result (self.new.saved ≡ self.old.saved) }
        ensures failures { CountsFailures self.old.failures self.old.told self.new.failures self.new.told }

        // When each comes.
        ensures stopped_before { IsTrue (not self.old.up) → result ≡ Err Fault.Stopped }
        ensures unchanged { IsTrue (not self.old.up) → self.new ≡ self.old }
        ensures as_told { IsTrue self.old.told → IsSome (job_of self.old.state.work) → IsErr result }
        ensures save_failed { self.old.failures < self.new.failures → result ≡ Err Fault.Stopped }
        ensures stopped { result ≡ Err Fault.Stopped → IsTrue (not self.old.up) ⊎ (self.old.failures < self.new.failures) ⊎ (self.old.failures ≡ 2 ^ 64 - 1) }
        ensures only { IfErr result (λ fault. (fault ≡ Fault.NoMemory) ⊎ (fault ≡ Fault.Stopped)) }
    {
        if !self.is_up() {
            return Err(Fault::Stopped);
        }
        match self.run_and_save(rt, alloc, workers, gate) {
            Ok(letters) => Ok(letters),
            Err(fault) => {
                self.stopped = true;
                Err(fault)
            }
        }
    }

    /// Whether it was not stopped.
    pub fn is_up(&self) -> bool
        ensures { result ≡ self.now.up }
    {
        !self.stopped
    }

    /// What it keeps: `State::report` and `State::next_work` say how far it is, and what its work waits for.
    pub fn state(&self) -> &State
        ensures { result.now ≡ self.now.state }
    {
        &self.state
    }

    /// Lends the keeper.
    pub fn keeper(&mut self) -> &mut K
        ensures* writes_back { sem 𝓛 (LendsExecutorKeeper K.row K.Keeper self.entry result) }
        ensures saved { K.saved result.now ≡ self.old.saved }
        ensures failed { K.failed result.now ≡ self.old.failures }
        ensures told { K.told result.now ≡ self.old.told }
    {
        &mut self.keeper
    }

    /// The keeper, to look at.
    pub fn kept(&self) -> &K
        ensures saved { K.saved result.now ≡ self.now.saved }
        ensures failed { K.failed result.now ≡ self.now.failures }
        ensures told { K.told result.now ≡ self.now.told }
    {
        &self.keeper
    }

    /// Ends it: its chain is undone, and its keeper given back.
    pub fn end(self) -> K
        ensures saved { K.saved result ≡ self.saved }
        ensures failed { K.failed result ≡ self.failures }
        ensures told { K.told result ≡ self.told }
    {
        let ExecNode {
            id: _,
            u: _,
            state,
            stopped: _,
            keeper,
        } = self;
        state.end();
        keeper
    }
}
