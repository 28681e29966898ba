//! Work over the tip, and what comes of it.

ghost use Rattle.std.specs.Prelude.{◌≡◌, ◌≤◌, ◌<◌, ◌⊎◌, ◌&&◌, true, false, not, [], None, Some, IfOk, IfErr, IsOk, IsTrue, IsNone, length, is_some};
ghost use Rattle.std.specs.Str.{bytes_eq};
ghost use Rattle.executor.specs.Work.{is_group_done as group_done};
ghost use Rattle.executor.specs.GroupRun.{is_untouched};
ghost use Rattle.rollback.specs.declared.chain.TheConstants.{MOST_MEMBERS};
ghost use Rattle.rollback.specs.Chain.{chain_tip, is_over, pushed};
ghost use Rattle.wire.specs.Batch.{batch_text};
ghost use Rattle.exec_lines.specs.Begun.{begin_of, finish_of};
ghost use Rattle.exec_lines.specs.State.{IsOverTip, is_behind as behind, is_tip, next_batch_number, runs_in_order as in_order};
ghost use Rattle.exec_lines.specs.Lines.{completed, went_on, begin as begin_line, on_step as step_line, on_finish as finish_line, on_adopt as adopt_line, work_after, is_made_of as made_of, may_adopt as may};
ghost use Rattle.exec_lines.specs.Step.{is_at_end as at_end};

use crate::body::Body;
use crate::letters::tell;
use crate::outcome::Outcome;
use crate::state::State;
use batches::Batch;
use decrees::Letter;
use executor::{Ended, Tentative, Work};
use proto::Fault;
use std::alloc::{AllocError, Global};
use std::mem;

/// Whether the tentative state is over the base of the work, as number and token tell.
fn is_over_base(tentative: &Tentative, work: &Work) -> bool
    ensures { result ≡ is_over work.now.base tentative.now }
{
    let before = tentative.before();
    let base = work.base();
    before.number() == base.number() && before.token() == base.token()
}

/// Whether the batch of the work led to the tentative state. It takes no memory.
fn is_of_batch(tentative: &Tentative, work: &Work) -> bool
    ensures { result ≡ bytes_eq (batch_text tentative.now.batch) (batch_text work.now.batch) }
{
    tentative.batch().is_same(work.batch())
}

/// Whether the tentative state is of this work: no step of which was made, over the same base and of
/// the same batch. It takes no memory.
fn is_made_of(tentative: &Tentative, work: &Work) -> bool
    ensures { result ≡ made_of tentative.now work.now }
{
    work.is_untouched() && is_over_base(tentative, work) && is_of_batch(tentative, work)
}

impl State {
    ghost use Rattle.exec_lines.specs.State.{executor_left};
    /// The tentative state joins the chain, which has room for it, and the work is over.
    fn push(&mut self, tentative: Tentative)
        requires room { length self.old.chain.members < MOST_MEMBERS }
        requires over { IsTrue (is_over (chain_tip self.old.chain) tentative) }
        ensures { self.new ≡ record self.old { chain = pushed self.old.chain tentative; work = None } }
    {
        self.work = None;
        if let Err((_, tentative)) = self.chain.push(tentative) {
            tentative.undo();
            // There is room, and it is over the tip.
            unreachable!()
        }
    }

    /// The tentative state joins the chain, and its token is sent after these letters.
    pub(crate) fn complete(
        &mut self,
        u: u8,
        id: u8,
        first: Vec<Letter<Body>>,
        tentative: Tentative,
    ) -> Result<Outcome, AllocError>
        requires few { u < 4 }
        requires room { length self.old.chain.members < MOST_MEMBERS }
        requires over { IsTrue (is_over (chain_tip self.old.chain) tentative) }
        ensures { IfOk result (λ outcome. executor_left self.new outcome ≡ completed u id self.old first.items tentative) }
    {
        let mut letters = first;
        if tell(u, id, &tentative, &mut letters).is_err() {
            tentative.undo();
            return Err(AllocError);
        }
        self.push(tentative);
        Ok(Outcome::saved(letters))
    }

    /// What comes of work.
    fn go_on(
        &mut self,
        u: u8,
        id: u8,
        first: Vec<Letter<Body>>,
        ended: Ended,
    ) -> Result<Outcome, AllocError>
        requires few { u < 4 }
        requires room { length self.old.chain.members < MOST_MEMBERS }
        requires current { IsTrue (not (behind self.old)) }
        requires over { IsOverTip self.old.chain ended }
        ensures { IfOk result (λ outcome. executor_left self.new outcome ≡ went_on u id self.old first.items ended) }
    {
        match ended {
            Ended::On(work) => {
                self.work = Some(work);
                Ok(Outcome::said(first))
            }
            Ended::Done(tentative) => self.complete(u, id, first, tentative),
        }
    }

    /// The batch begun over the tip.
    #[tactic(auto, using(crate::proofs::BegunLemmas::begins_over))]
    fn begun(&self, alloc: Global, batch: Batch) -> Result<Ended, AllocError>
        requires next { batch.n ≡ next_batch_number self.now }
        ensures { IfOk result (λ ended. ended ≡ begin_of (chain_tip self.now.chain) batch (in_order self.now.standing batch.n)) }
    {
        let ordered = self.runs_in_order(batch.n);
        Work::begin(alloc, self.chain.tip(), batch, ordered)
    }

    /// Begins the batch over the tip.
    pub(crate) fn begin(
        &mut self,
        alloc: Global,
        u: u8,
        id: u8,
        first: Vec<Letter<Body>>,
        batch: Batch,
    ) -> Result<Outcome, AllocError>
        requires few { u < 4 }
        requires room { length self.old.chain.members < MOST_MEMBERS }
        requires current { IsTrue (not (behind self.old)) }
        requires next { batch.n ≡ next_batch_number self.old }
        ensures { IfOk result (λ outcome. executor_left self.new outcome ≡ begin_line u id self.old first.items batch) }
    {
        let ended = self.begun(alloc, batch)?;
        self.go_on(u, id, first, ended)
    }

    /// The next step of the request at the place, if there is work that has one.
    pub fn on_step(&mut self, alloc: Global, place: u32) -> Result<Outcome, AllocError>
        ensures done { IfOk result (λ outcome. executor_left self.new outcome ≡ step_line self.old place) }
        ensures fits_none { IsTrue (not (is_some (work_after self.old.work place))) → IsOk result }
    {
        if let Some(work) = &mut self.work {
            work.step(alloc, place)?;
        }
        Ok(Outcome::nothing(alloc))
    }

    /// Whether there is work whose group is at its end.
    fn is_at_end(&self) -> bool
        ensures { result ≡ at_end self.now.work }
    {
        match &self.work {
            Some(work) => work.next_place().is_none(),
            None => false,
        }
    }

    /// The end of a group: the next one, or after the last one the end of the work.
    #[tactic(auto, using(crate::proofs::BegunLemmas::goes_is))]
    fn finish(&mut self, alloc: Global, u: u8, id: u8, work: Work) -> Result<Outcome, AllocError>
        requires few { u < 4 }
        requires room { length self.old.chain.members < MOST_MEMBERS }
        requires current { IsTrue (not (behind self.old)) }
        requires over { IsTrue (is_tip self.old.chain work.base) }
        ensures { IfOk result (λ outcome. executor_left self.new outcome ≡ went_on u id self.old [] (finish_of work)) }
    {
        let ended = work.finish(alloc)?;
        self.go_on(u, id, Vec::new(alloc), ended)
    }

    /// The work is at the end of a group.
    pub fn on_finish(&mut self, alloc: Global, u: u8, id: u8) -> Result<Outcome, AllocError>
        requires { u < 4 }
        ensures done { IfOk result (λ outcome. executor_left self.new outcome ≡ finish_line u id self.old) }
        ensures fits_none { IsTrue (not (at_end self.old.work)) → IsOk result }
    {
        if !self.is_at_end() {
            return Ok(Outcome::nothing(alloc));
        }
        match mem::replace(&mut self.work, None) {
            Some(work) => self.finish(alloc, u, id, work),
            None => Ok(Outcome::nothing(alloc)),
        }
    }

    /// Whether the tentative state is of the work, no step of which was made.
    #[tactic(auto, using(crate::proofs::LineLemmas::adopted_has_room, crate::proofs::LineLemmas::adopted_is_over))]
    fn may_adopt(&self, tentative: &Tentative) -> bool
        ensures may { result ≡ may self.now tentative.now }
        ensures room { IsTrue result → length self.now.chain.members < MOST_MEMBERS }
        ensures over { IsTrue result → IsTrue (is_over (chain_tip self.now.chain) tentative.now) }
    {
        match &self.work {
            Some(work) => is_made_of(tentative, work),
            None => false,
        }
    }

    /// A tentative state is handed in. `Unfit`: it is not of the work, or a step of that was made; then
    /// it is undone, and nothing has changed. `NoMemory` is the only other error.
    pub fn on_adopt(
        &mut self,
        alloc: Global,
        u: u8,
        id: u8,
        tentative: Tentative,
    ) -> Result<Outcome, Fault>
        requires { u < 4 }
        ensures done { IfOk result (λ outcome. executor_left self.new outcome ≡ adopt_line u id self.old tentative) }
        ensures refused { IsTrue (not (may self.old tentative)) → (result ≡ Err Fault.Unfit) × (self.new ≡ self.old) }
        ensures adopted { IsTrue (may self.old tentative) → IfErr result (λ fault. fault ≡ Fault.NoMemory) }
    {
        if !self.may_adopt(&tentative) {
            tentative.undo();
            return Err(Fault::Unfit);
        }
        Ok(self.complete(u, id, Vec::new(alloc), tentative)?)
    }
}
