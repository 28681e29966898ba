//! Which line an input fits.

ghost use Rattle.std.specs.Prelude.{◌≡◌, ◌^◌, ◌<◌, ◌≤◌, ◌⊎◌, IfOk, IfErr, IsOk, IsTrue, not};
ghost use Rattle.verifier.specs.State.{next_place};
ghost use Rattle.verifier.specs.Step.{of_executor, of_verifier, step, fits_line, fits_executor, fits_verifier};

use crate::input::Input;
use crate::outcome::{Outcome, nothing};
use crate::state::State;
use crate::tally::Tallied;
use decrees::{Ballot, Node, Start, VoteKey};
use proto::Fault;
use std::alloc::Global;
use view_change::Promise;

impl State {
    ghost use Rattle.verifier.specs.State.{verifier_left};
    /// Does what the input asks for. Stopped: its view, or the place after what it knows, would rise
    /// above the greatest number.
    pub fn step(&mut self, alloc: Global, u: u8, id: u8, input: Input) -> Result<Outcome, Fault>
        requires { u < 4 }
        ensures done { IfOk result (λ outcome. verifier_left self.new outcome ≡ step u id self.old input) }
        ensures fits_none { IsTrue (not (fits_line self.old input)) → IsOk result }
        ensures err { IfErr result (λ fault. (fault ≡ Fault.NoMemory) ⊎ ((fault ≡ Fault.Stopped) × ((2 ^ 64 ≤ (step u id self.old input).state.view) ⊎ (2 ^ 64 ≤ next_place (step u id self.old input).state)))) }
    {
        match input {
            Input::Suspect => self.suspected(alloc, u, id),
            Input::Trim { place } => Ok(self.on_trim(alloc, place)?),
            Input::Letter(letter) => match letter.from {
                Node::Client(_) => Ok(nothing(alloc)),
                Node::Executor(from) => self.of_executor(alloc, u, id, from, letter.body),
                Node::Verifier(from) => self.of_verifier(alloc, u, id, from, letter.body),
            },
        }
    }

    fn of_executor(
        &mut self,
        alloc: Global,
        u: u8,
        id: u8,
        from: u8,
        body: Ballot,
    ) -> Result<Outcome, Fault>
        requires { u < 4 }
        ensures done { IfOk result (λ outcome. verifier_left self.new outcome ≡ of_executor u id self.old from body) }
        ensures fits_none { IsTrue (not (fits_executor self.old from body)) → IsOk result }
        ensures err { IfErr result (λ fault. fault ≡ Fault.NoMemory) }
    {
        match body {
            Ballot::Token {
                epoch,
                n,
                previous,
                token,
            } => {
                let previous = previous.0;
                let key = VoteKey {
                    epoch,
                    n,
                    executor: from,
                    previous,
                };
                Ok(self.on_token(alloc, u, id, key, token)?)
            }
            Ballot::Ask { place } => Ok(self.on_ask(alloc, id, Node::Executor(from), place)?),
            _ => Ok(nothing(alloc)),
        }
    }

    fn of_verifier(
        &mut self,
        alloc: Global,
        u: u8,
        id: u8,
        from: u8,
        body: Ballot,
    ) -> Result<Outcome, Fault>
        requires { u < 4 }
        ensures done { IfOk result (λ outcome. verifier_left self.new outcome ≡ of_verifier u id self.old from body) }
        ensures fits_none { IsTrue (not (fits_verifier self.old from body)) → IsOk result }
        ensures err { IfErr result (λ fault. (fault ≡ Fault.NoMemory) ⊎ ((fault ≡ Fault.Stopped) × (2 ^ 64 ≤ next_place (of_verifier u id self.old from body).state))) }
    {
        match body {
            Ballot::Token { .. } => Ok(nothing(alloc)),
            Ballot::Accept {
                view,
                place,
                decree,
            } => Ok(self.on_accept(alloc, u, id, from, view, place, decree)?),
            Ballot::Accepted {
                view,
                place,
                decree,
            } => self.on_accepted(alloc, u, id, place, Tallied { from, view, decree }),
            Ballot::Decided { place, decree } => {
                self.on_decided(alloc, u, id, from, place, decree)
            }
            Ballot::Ask { place } => Ok(self.on_ask(alloc, id, Node::Verifier(from), place)?),
            Ballot::Change { view } => Ok(self.on_change(alloc, id, from, view)?),
            Ballot::Promise {
                view,
                known,
                accepted,
            } => {
                let promise = Promise {
                    from,
                    known,
                    accepted,
                };
                Ok(self.on_promise(alloc, u, id, view, promise)?)
            }
            Ballot::Stands { place, standing } => {
                self.on_stands(alloc, u, id, Start { place, standing })
            }
        }
    }
}
