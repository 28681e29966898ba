//! Decrees, and what an executor does by them.

ghost use Rattle.std.specs.Prelude.{◌≡◌, ◌<◌, ◌≤◌, ◌-◌, ◌^◌, ◌⊎◌, ◌++◌, true, not, IfOk, IfErr, OnOk, IsOk, IsTrue};
ghost use Rattle.rollback.specs.Chain.{commits_first};
ghost use Rattle.decrees.specs.Standing.{may_follow};
ghost use Rattle.transfer.specs.Need.{need_of};
ghost use Rattle.exec_lines.specs.declared.body.Body.TheVariants as body;
ghost use Rattle.exec_lines.specs.State.{to_other_executors};
ghost use Rattle.exec_lines.specs.Lines.{rolled_back, stood_without, obey as obey_line, commit_first as commit_line, roll_back as roll_back_line, needs as needs_of, decree_is_due as due, is_heeded, on_decree as decree_line, resumed as resumed_line};
ghost use Rattle.exec_lines.specs.Step.{IsCounted};

use crate::body::Body;
use crate::letters::{need_to_others, one, tell_all, to_clients, to_verifiers};
use crate::outcome::Outcome;
use crate::state::State;
use decrees::{Ballot, Decree, Letter, Node, Standing};
use proto::Fault;
use std::alloc::{AllocError, Global};
use transfer::Need;

impl State {
    ghost use Rattle.exec_lines.specs.State.{executor_left};
    /// Commits the first member of the chain, by the decree of its number and token. Its replies go to
    /// their clients.
    fn commit_first(
        &mut self,
        alloc: Global,
        id: u8,
        decree: &Decree,
    ) -> Result<Outcome, AllocError>
        requires known { self.old.known < 2 ^ 64 - 1 }
        requires standing { self.old.standing.n < 2 ^ 64 - 1 }
        requires epoch { self.old.standing.epoch < 2 ^ 64 - 1 }
        requires first { IsTrue (commits_first decree.now self.old.chain.members) }
        ensures { IfOk result (λ outcome. executor_left self.new outcome ≡ commit_line id self.old decree.now) }
    {
        self.known += 1;
        self.standing = self.standing.after(decree);
        let Some(replies) = self.chain.commit_first(decree) else {
            unreachable!()
        };
        let letters = to_clients(alloc, id, replies)?;
        Ok(Outcome::saved(letters))
    }

    /// The need of its state to all others, after these letters.
    fn all_needs(
        &self,
        alloc: Global,
        u: u8,
        id: u8,
        letters: &mut Vec<Letter<Body>>,
    ) -> Result<(), AllocError>
        requires { u < 4 }
        ensures { OnOk result (letters.new.items ≡ letters.old.items ++ to_other_executors u id (body.Need (need_of self.now.chain.have))) }
    {
        let need = Need::of_state(alloc, self.chain.committed())?;
        need_to_others(u, id, &need, letters)
    }

    /// What it asks of the others, if it is behind, after these letters.
    pub(crate) fn needs(
        &self,
        alloc: Global,
        u: u8,
        id: u8,
        letters: &mut Vec<Letter<Body>>,
    ) -> Result<(), AllocError>
        requires { u < 4 }
        ensures { OnOk result (letters.new.items ≡ letters.old.items ++ needs_of u id self.now) }
    {
        if !self.is_behind() {
            return Ok(());
        }
        self.all_needs(alloc, u, id, letters)
    }

    /// Undoes the chain and drops the work: after so many decrees this stands.
    pub(crate) fn begin_again(&mut self, known: u64, standing: Standing)
        requires { 1 ≤ standing.epoch }
        ensures { self.new ≡ stood_without self.old known standing }
    {
        self.chain.undo_all();
        self.work = None;
        self.known = known;
        self.standing = standing;
    }

    /// Undoes the chain and drops the work, by this decree.
    fn turn_back(&mut self, decree: &Decree)
        requires known { self.old.known < 2 ^ 64 - 1 }
        requires standing { self.old.standing.n < 2 ^ 64 - 1 }
        requires epoch { self.old.standing.epoch < 2 ^ 64 - 1 }
        ensures { self.new ≡ rolled_back self.old decree.now }
    {
        let standing = self.standing.after(decree);
        self.begin_again(self.known + 1, standing);
    }

    /// So it does, and asks for what it then lacks.
    fn roll_back(
        &mut self,
        alloc: Global,
        u: u8,
        id: u8,
        decree: &Decree,
    ) -> Result<Outcome, AllocError>
        requires few { u < 4 }
        requires known { self.old.known < 2 ^ 64 - 1 }
        requires standing { self.old.standing.n < 2 ^ 64 - 1 }
        requires epoch { self.old.standing.epoch < 2 ^ 64 - 1 }
        ensures { IfOk result (λ outcome. executor_left self.new outcome ≡ roll_back_line u id self.old decree.now) }
    {
        self.turn_back(decree);
        let mut letters = Vec::new(alloc);
        self.needs(alloc, u, id, &mut letters)?;
        Ok(Outcome::saved(letters))
    }

    /// Obeys the decree. `Stopped`: a counter is at its limit.
    fn obey(&mut self, alloc: Global, u: u8, id: u8, decree: &Decree) -> Result<Outcome, Fault>
        requires few { u < 4 }
        requires next { IsTrue (may_follow self.old.standing decree.now) }
        ensures done { IfOk result (λ outcome. executor_left self.new outcome ≡ obey_line u id self.old decree.now) }
        ensures err { IfErr result (λ fault. (fault ≡ Fault.NoMemory) ⊎ ((fault ≡ Fault.Stopped) × IsCounted self.old)) }
    {
        if self.known == u64::MAX
            || self.standing.n == u64::MAX
            || self.standing.epoch == u64::MAX
        {
            return Err(Fault::Stopped);
        }
        if self.chain.commits_first(decree) {
            Ok(self.commit_first(alloc, id, decree)?)
        } else {
            Ok(self.roll_back(alloc, u, id, decree)?)
        }
    }

    /// Whether the decree is the next one, and may come next.
    fn is_due(&self, place: u64, decree: &Decree) -> bool
        ensures { result ≡ due self.now place decree.now }
    {
        place.checked_sub(1) == Some(self.known) && self.standing.may_follow(decree)
    }

    /// A decree is decided. `Stopped`: it is the next one, and a counter is at its limit. `NoMemory` is
    /// the only other error.
    pub fn on_decree(
        &mut self,
        alloc: Global,
        u: u8,
        id: u8,
        from: u8,
        place: u64,
        decree: Decree,
    ) -> Result<Outcome, Fault>
        requires { u < 4 }
        ensures done { IfOk result (λ outcome. executor_left self.new outcome ≡ decree_line u id self.old from place decree) }
        ensures fits_none { IsTrue (not (is_heeded self.old place decree)) → IsOk result }
        ensures err { IfErr result (λ fault. (fault ≡ Fault.NoMemory) ⊎ ((fault ≡ Fault.Stopped) × IsCounted self.old)) }
    {
        if self.is_due(place, &decree) {
            return self.obey(alloc, u, id, &decree);
        }
        if place <= self.known || place - 1 == self.known {
            return Ok(Outcome::nothing(alloc));
        }
        let ask = Ballot::Ask {
            place: self.known + 1,
        };
        let letters = one(alloc, id, Node::Verifier(from), Body::Ballot(ask))?;
        Ok(Outcome::said(letters))
    }

    /// The letters of an executor that goes on from its record: the tokens of its tentative states, the
    /// question which decrees it lacks, and, if it is behind, what it needs. `Stopped`: it knows as
    /// many decrees as can be counted. `NoMemory` is the only other error.
    pub fn resumed(&self, alloc: Global, u: u8, id: u8) -> Result<Vec<Letter<Body>>, Fault>
        requires { u < 4 }
        ensures done { IfOk result (λ letters. letters.items ≡ (resumed_line u id self.now).letters) }
        ensures err { IfErr result (λ fault. (fault ≡ Fault.NoMemory) ⊎ ((fault ≡ Fault.Stopped) × (self.now.known ≡ 2 ^ 64 - 1))) }
    {
        if self.known == u64::MAX {
            return Err(Fault::Stopped);
        }
        let place = self.known + 1;
        let mut letters = tell_all(alloc, u, id, self.chain.members())?;
        to_verifiers(u, id, Ballot::Ask { place }, &mut letters)?;
        self.needs(alloc, u, id, &mut letters)?;
        Ok(letters)
    }
}
