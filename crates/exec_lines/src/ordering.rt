//! What clients ask, and which batch is begun.

ghost use Rattle.std.specs.Prelude.{◌≡◌, ◌≤◌, ◌<◌, ◌⊎◌, true, not, IfOk, IfErr, IsOk, IsTrue, Err};
ghost use Rattle.exec_lines.specs.Lines.{on_want as want_line, waits, on_cut as cut_line, on_order as order_line, after_cut, cut_batch, may_cut as may, may_obey_order};

use crate::body::Body;
use crate::letters::{one, order_to_others};
use crate::outcome::Outcome;
use crate::state::State;
use batches::{Batch, GREATEST_NUMBER};
use decrees::Node;
use proto::Reply;
use sessions::Request;
use std::alloc::{AllocError, Global};

impl State {
    ghost use Rattle.exec_lines.specs.State.{executor_left};
    /// The request waits for a batch.
    fn wait(&mut self, alloc: Global, request: Request) -> Result<Outcome, AllocError>
        ensures { IfOk result (λ outcome. executor_left self.new outcome ≡ waits self.old request) }
    {
        self.gather.add(request)?;
        Ok(Outcome::nothing(alloc))
    }

    /// A client's request: if it ran last it is answered again, if a later one ran it is
    /// ignored, and else it waits for a batch.
    pub fn on_want(
        &mut self,
        alloc: Global,
        id: u8,
        request: Request,
    ) -> Result<Outcome, AllocError>
        ensures { IfOk result (λ outcome. executor_left self.new outcome ≡ want_line id self.old request) }
    {
        match self.chain.committed().sessions().kept(request.client) {
            Some((number, reply)) if number == request.number => {
                let body = Body::Reply {
                    number,
                    reply: reply.clone()?,
                };
                let letters = one(alloc, id, Node::Client(request.client), body)?;
                Ok(Outcome::said(letters))
            }
            Some((number, _)) if request.number < number => Ok(Outcome::nothing(alloc)),
            _ => self.wait(alloc, request),
        }
    }

    /// The batch that is cut, if there is one; what waits on is left.
    fn cut(&mut self, alloc: Global, moment: u32) -> Result<Option<Batch>, AllocError>
        ensures batch { IfOk result (λ batch. batch ≡ cut_batch self.old moment) }
        ensures left { IfOk result (λ batch. self.new ≡ after_cut self.old) }
    {
        if GREATEST_NUMBER < self.next_number() {
            return Ok(None);
        }
        let epoch = self.standing.epoch;
        let tip = self.chain.tip();
        let Ok(batch) = tip.cut(alloc, &mut self.gather, epoch, moment) else {
            return Err(AllocError);
        };
        Ok(batch)
    }

    /// Whether it is the primary and may begin a batch.
    fn may_cut(&self, u: u8, id: u8) -> bool
        requires { u < 4 }
        ensures { result ≡ may u id self.now }
    {
        self.is_primary(u, id) && self.may_begin()
    }

    /// The primary cuts a batch at this moment, orders it to the others and begins it.
    pub fn on_cut(
        &mut self,
        alloc: Global,
        u: u8,
        id: u8,
        moment: u32,
    ) -> Result<Outcome, AllocError>
        requires { u < 4 }
        ensures done { IfOk result (λ outcome. executor_left self.new outcome ≡ cut_line u id self.old moment) }
        ensures fits_none { IsTrue (not (may u id self.old)) → IsOk result }
    {
        if !self.may_cut(u, id) {
            return Ok(Outcome::nothing(alloc));
        }
        match self.cut(alloc, moment)? {
            Some(batch) => {
                let letters = order_to_others(alloc, u, id, &batch)?;
                self.begin(alloc, u, id, letters, batch)
            }
            None => Ok(Outcome::nothing(alloc)),
        }
    }

    /// Whether the order is of the standing epoch and for the next number, and may be obeyed now.
    fn may_obey(&self, batch: &Batch) -> bool
        ensures { result ≡ may_obey_order self.now batch.now }
    {
        batch.epoch == self.standing.epoch && self.may_begin() && batch.n == self.next_number()
    }

    /// Another executor orders a batch.
    pub fn on_order(
        &mut self,
        alloc: Global,
        u: u8,
        id: u8,
        batch: Batch,
    ) -> Result<Outcome, AllocError>
        requires { u < 4 }
        ensures done { IfOk result (λ outcome. executor_left self.new outcome ≡ order_line u id self.old batch) }
        ensures fits_none { IsTrue (not (may_obey_order self.old batch)) → IsOk result }
    {
        if !self.may_obey(&batch) {
            return Ok(Outcome::nothing(alloc));
        }
        self.begin(alloc, u, id, Vec::new(alloc), batch)
    }
}
