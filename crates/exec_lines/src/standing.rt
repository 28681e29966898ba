//! What stands, told by a verifier that has forgotten the decrees.

ghost use Rattle.std.specs.Prelude.{◌≡◌, ◌<◌, ◌++◌, ℕ, None, Some, is_some, not, IfOk, IsOk, IsTrue, OnOk};
ghost use Rattle.rollback.specs.Chain.{ChainView, chain_from, replies_on_commit};
ghost use Rattle.exec_lines.specs.Lines.{is_told as told, on_stands as stands_line, stood, stood_over};

use crate::letters::to_clients;
use crate::outcome::Outcome;
use crate::state::State;
use decrees::Standing;
use executor::Answered;
use std::alloc::{AllocError, Global};

impl State {
    ghost use Rattle.exec_lines.specs.State.{executor_left};
    /// Whether this could stand there, and it has not obeyed as much.
    fn is_told(&self, place: u64, standing: &Standing) -> bool
        ensures { result ≡ told self.now place standing.now }
    {
        self.known < place && standing.could_stand(place)
    }

    /// Commits the chain up to the state that stands. Members over it, and the work, stay only if
    /// the epoch goes on. After NoMemory nothing is said of the state.
    fn stand(
        &mut self,
        place: u64,
        standing: Standing,
        replies: &mut Vec<Answered>,
    ) -> Result<(), AllocError>
        requires told { IsTrue (told self.old place standing) }
        requires has { IsTrue (is_some (chain_from standing self.old.chain.have self.old.chain.members)) }
        ensures state { OnOk result ((c : ChainView) × (chain_from standing self.old.chain.have self.old.chain.members ≡ Some c) × (self.new ≡ stood_over self.old place standing c)) }
        ensures replies { OnOk result (replies.new.items ≡ replies.old.items ++ replies_on_commit standing self.old.chain.have self.old.chain.members) }
    {
        let goes_on = standing.epoch == self.standing.epoch;
        let said = self.chain.commit_to(&standing, replies);
        self.known = place;
        self.standing = standing;
        if said.is_ok() && goes_on {
            return Ok(());
        }
        self.chain.undo_all();
        self.work = None;
        said
    }

    /// So it does if it has the state that stands. The replies of the members go to their clients.
    fn stand_over(
        &mut self,
        alloc: Global,
        id: u8,
        place: u64,
        standing: Standing,
    ) -> Result<Outcome, AllocError>
        requires told { IsTrue (told self.old place standing) }
        requires has { IsTrue (is_some (chain_from standing self.old.chain.have self.old.chain.members)) }
        ensures { IfOk result (λ outcome. (u : ℕ) → executor_left self.new outcome ≡ stood u id self.old place standing (chain_from standing self.old.chain.have self.old.chain.members)) }
    {
        let mut replies = Vec::new(alloc);
        self.stand(place, standing, &mut replies)?;
        let letters = to_clients(alloc, id, replies)?;
        Ok(Outcome::saved(letters))
    }

    /// Undoes the chain, if it has not the state that stands, and asks for that if it is then behind.
    fn ask_for_state(
        &mut self,
        alloc: Global,
        u: u8,
        id: u8,
        place: u64,
        standing: Standing,
    ) -> Result<Outcome, AllocError>
        requires few { u < 4 }
        requires told { IsTrue (told self.old place standing) }
        ensures { IfOk result (λ outcome. executor_left self.new outcome ≡ stood u id self.old place standing None) }
    {
        self.begin_again(place, standing);
        let mut letters = Vec::new(alloc);
        self.needs(alloc, u, id, &mut letters)?;
        Ok(Outcome::saved(letters))
    }

    /// A verifier that has forgotten decrees tells what stands after those up to this place. NoMemory is
    /// the only error.
    pub fn on_stands(
        &mut self,
        alloc: Global,
        u: u8,
        id: u8,
        place: u64,
        standing: Standing,
    ) -> Result<Outcome, AllocError>
        requires { u < 4 }
        ensures done { IfOk result (λ outcome. executor_left self.new outcome ≡ stands_line u id self.old place standing) }
        ensures fits_none { IsTrue (not (told self.old place standing)) → IsOk result }
    {
        if !self.is_told(place, &standing) {
            return Ok(Outcome::nothing(alloc));
        }
        if self.chain.has(&standing) {
            self.stand_over(alloc, id, place, standing)
        } else {
            self.ask_for_state(alloc, u, id, place, standing)
        }
    }
}
