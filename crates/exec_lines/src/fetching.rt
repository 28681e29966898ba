//! How an executor that is behind comes to the state that stands.

ghost use Rattle.std.specs.Prelude.{◌≡◌, true, not, IfOk, IsOk, IsTrue, Some, option_map};
ghost use Rattle.decrees.specs.declared.node.Node.TheVariants.{Executor};
ghost use Rattle.transfer.specs.Parcel.{take_of, answer_of};
ghost use Rattle.exec_lines.specs.declared.body.Body.TheVariants as body;
ghost use Rattle.exec_lines.specs.State.{is_behind as behind, one_letter};
ghost use Rattle.exec_lines.specs.Lines.{has_more, on_need as need_line, on_parcel as parcel_line, came};

use crate::body::Body;
use crate::letters::one;
use crate::outcome::Outcome;
use crate::state::State;
use decrees::Node;
use executor::Committed;
use proto::Fault;
use rollback::Chain;
use std::alloc::{AllocError, Global};
use std::mem;
use transfer::{Need, Parcel, answer, take};

impl State {
    ghost use Rattle.exec_lines.specs.State.{executor_left};
    /// Whether its committed state is a later one than that of the need.
    fn has_more(&self, need: &Need) -> bool
        ensures { result ≡ has_more self.now need.now }
    {
        need.number < self.chain.committed().number()
    }

    /// What differs from the need, to the executor that has it.
    fn send_parcel(
        &self,
        alloc: Global,
        id: u8,
        from: u8,
        need: &Need,
    ) -> Result<Outcome, AllocError>
        requires { IsTrue (has_more self.now need.now) }
        ensures { IfOk result (λ outcome. executor_left self.now outcome ≡ one_letter id self.now (Executor from) (body.Parcel (answer_of self.now.chain.have need.now))) }
    {
        let parcel = answer(alloc, self.chain.committed(), need)?;
        let letters = one(alloc, id, Node::Executor(from), Body::Parcel(parcel))?;
        Ok(Outcome::said(letters))
    }

    /// Another executor has this state: if it is an older one, it is sent what differs.
    pub fn on_need(
        &self,
        alloc: Global,
        id: u8,
        from: u8,
        need: &Need,
    ) -> Result<Outcome, AllocError>
        ensures done { IfOk result (λ outcome. executor_left self.now outcome ≡ need_line id self.now from need.now) }
        ensures fits_none { IsTrue (not (has_more self.now need.now)) → IsOk result }
    {
        if !self.has_more(need) {
            return Ok(Outcome::nothing(alloc));
        }
        self.send_parcel(alloc, id, from, need)
    }

    /// The state that stands, if the parcel makes it over the own pages.
    fn take(&self, alloc: Global, parcel: Parcel) -> Result<Option<Committed>, AllocError>
        ensures { IfOk result (λ committed. option_map (λ c. c.state) committed ≡ take_of self.now.chain.have.items parcel self.now.standing.n self.now.standing.token) }
    {
        let own = self.chain.committed().pages();
        match take(alloc, own, parcel, self.standing.n, &self.standing.token) {
            Ok(committed) => Ok(Some(committed)),
            Err(Fault::BadRecord) => Ok(None),
            Err(_) => Err(AllocError),
        }
    }

    /// The committed state is this one from now on, and its chain has no members.
    fn adopt_committed(
        &mut self,
        alloc: Global,
        committed: Committed,
    ) -> Result<Outcome, AllocError>
        requires { IsTrue (behind self.old) }
        ensures { IfOk result (λ outcome. executor_left self.new outcome ≡ came self.old (Some committed.state)) }
    {
        let (chain, _) = Chain::new(alloc, committed)?;
        mem::replace(&mut self.chain, chain).end();
        Ok(Outcome::saved(Vec::new(alloc)))
    }

    /// The state that stands has come, if it is behind and the parcel makes just that one.
    pub fn on_parcel(&mut self, alloc: Global, parcel: Parcel) -> Result<Outcome, AllocError>
        ensures done { IfOk result (λ outcome. executor_left self.new outcome ≡ parcel_line self.old parcel) }
        ensures fits_none { IsTrue (not (behind self.old)) → IsOk result }
    {
        if !self.is_behind() {
            return Ok(Outcome::nothing(alloc));
        }
        match self.take(alloc, parcel)? {
            Some(committed) => self.adopt_committed(alloc, committed),
            None => Ok(Outcome::nothing(alloc)),
        }
    }
}
