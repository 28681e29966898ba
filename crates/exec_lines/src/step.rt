//! Which line an input fits.

ghost use Rattle.std.specs.Prelude.{◌≡◌, ◌⊎◌, ◌<◌, true, not, IfOk, IfErr, IsOk, IsTrue, Err};
ghost use Rattle.exec_lines.specs.Step.{from_client as client_line, from_executor as executor_line, from_verifier as verifier_line, on_ballot as ballot_line, executor_step, fits_a_line, fits_from_client, fits_from_executor, fits_from_verifier, fits_ballot, is_refused, IsCounted};

use crate::body::Body;
use crate::input::Input;
use crate::outcome::Outcome;
use crate::state::State;
use decrees::{Ballot, Node};
use proto::Fault;
use std::alloc::{AllocError, Global};

impl State {
    ghost use Rattle.exec_lines.specs.State.{executor_left};
    /// Does what the input asks for. An input that fits no line changes nothing and is Ok; it takes no
    /// memory.
    ///
    /// `Unfit` comes exactly if a tentative state was handed in that is not of the work: it is
    /// undone, and nothing has changed. `Stopped`: a decree was to be obeyed, and a counter is at its
    /// limit. `NoMemory` is the only other error. After these two nothing is said of the state: whoever
    /// keeps its record stops.
    pub fn step(&mut self, alloc: Global, u: u8, id: u8, input: Input) -> Result<Outcome, Fault>
        requires { u < 4 }
        ensures done { IfOk result (λ outcome. executor_left self.new outcome ≡ executor_step u id self.old input) }
        ensures fits_none { IsTrue (not (fits_a_line u id self.old input)) → IsTrue (not (is_refused self.old input)) → IsOk result }
        ensures refused { IsTrue (is_refused self.old input) → (result ≡ Err Fault.Unfit) × (self.new ≡ self.old) }
        ensures err { IsTrue (not (is_refused self.old input)) → IfErr result (λ fault. (fault ≡ Fault.NoMemory) ⊎ ((fault ≡ Fault.Stopped) × IsCounted self.old)) }
    {
        match input {
            Input::Cut(moment) => Ok(self.on_cut(alloc, u, id, moment)?),
            Input::Step(place) => Ok(self.on_step(alloc, place)?),
            Input::Finish => Ok(self.on_finish(alloc, u, id)?),
            Input::Adopt(tentative) => self.on_adopt(alloc, u, id, tentative),
            Input::Letter(letter) => match letter.from {
                Node::Client(_) => Ok(self.from_client(alloc, id, letter.body)?),
                Node::Executor(from) => Ok(self.from_executor(alloc, u, id, from, letter.body)?),
                Node::Verifier(from) => self.from_verifier(alloc, u, id, from, letter.body),
            },
        }
    }

    fn from_client(&mut self, alloc: Global, id: u8, body: Body) -> Result<Outcome, AllocError>
        ensures done { IfOk result (λ outcome. executor_left self.new outcome ≡ client_line id self.old body) }
        ensures fits_none { IsTrue (not (fits_from_client body)) → IsOk result }
    {
        match body {
            Body::Want(request) => self.on_want(alloc, id, request),
            _ => Ok(Outcome::nothing(alloc)),
        }
    }

    fn from_executor(
        &mut self,
        alloc: Global,
        u: u8,
        id: u8,
        from: u8,
        body: Body,
    ) -> Result<Outcome, AllocError>
        requires { u < 4 }
        ensures done { IfOk result (λ outcome. executor_left self.new outcome ≡ executor_line u id self.old from body) }
        ensures fits_none { IsTrue (not (fits_from_executor self.old body)) → IsOk result }
    {
        match body {
            Body::Order(batch) => self.on_order(alloc, u, id, batch),
            Body::Need(need) => self.on_need(alloc, id, from, &need),
            Body::Parcel(parcel) => self.on_parcel(alloc, parcel),
            _ => Ok(Outcome::nothing(alloc)),
        }
    }

    fn from_verifier(
        &mut self,
        alloc: Global,
        u: u8,
        id: u8,
        from: u8,
        body: Body,
    ) -> Result<Outcome, Fault>
        requires { u < 4 }
        ensures done { IfOk result (λ outcome. executor_left self.new outcome ≡ verifier_line u id self.old from body) }
        ensures fits_none { IsTrue (not (fits_from_verifier self.old body)) → IsOk result }
        ensures err { IfErr result (λ fault. (fault ≡ Fault.NoMemory) ⊎ ((fault ≡ Fault.Stopped) × IsCounted self.old)) }
    {
        match body {
            Body::Ballot(ballot) => self.on_ballot(alloc, u, id, from, ballot),
            _ => Ok(Outcome::nothing(alloc)),
        }
    }

    fn on_ballot(
        &mut self,
        alloc: Global,
        u: u8,
        id: u8,
        from: u8,
        ballot: Ballot,
    ) -> Result<Outcome, Fault>
        requires { u < 4 }
        ensures done { IfOk result (λ outcome. executor_left self.new outcome ≡ ballot_line u id self.old from ballot) }
        ensures fits_none { IsTrue (not (fits_ballot self.old ballot)) → IsOk result }
        ensures err { IfErr result (λ fault. (fault ≡ Fault.NoMemory) ⊎ ((fault ≡ Fault.Stopped) × IsCounted self.old)) }
    {
        match ballot {
            Ballot::Decided { place, decree } => self.on_decree(alloc, u, id, from, place, decree),
            Ballot::Stands { place, standing } => {
                Ok(self.on_stands(alloc, u, id, place, standing)?)
            }
            _ => Ok(Outcome::nothing(alloc)),
        }
    }
}
