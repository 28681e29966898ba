//! The slot of a verifier.

ghost use Rattle.std.specs.Prelude.{refl};
ghost use Rattle.slots.specs.Slots.{verifier_kept, verifier_told, VerifierSettles, VerifierReopens};
ghost use Rattle.slots.specs.UpSlots.{verifier_up};

use crate::kept_node::KeptNode;
use crate::node_slot::NodeSlot;
use base::Text;
use decrees::{Ballot, Letter};
use keeper::MemKeeper;
use std::alloc::{AllocError, Global};
use std::mem;
use verifier::{Input, Verifier};

/// A verifier over a keeper in memory.
pub type KeptVerifier = Verifier<MemKeeper<Text>>;

/// The slot of a verifier.
pub type VerifierSlot = NodeSlot<KeptVerifier>;

impl KeptNode for Verifier<MemKeeper<Text>> {
    type Record = Text;

    type Input = Input;

    type Body = Ballot;

    ghost kept = { verifier_kept };

    ghost up = { verifier_up };

    ghost told = { verifier_told };

    ghost settles = { VerifierSettles };

    ghost reopens = { VerifierReopens };

    ghost down_ignores = { λ _ _. (refl, refl) };

    ghost gone_ignores = { λ _ _. (refl, refl) };

    ghost up_stays = { λ _ _ _. (refl, refl) };

    ghost gone_stays = { λ _ _ _. (refl, refl) };

    #[tactic(auto, using(crate::proofs::StepLemmas::kept_is))]
    fn into_keeper(self) -> MemKeeper<Text> {
        self.end()
    }

    #[tactic(auto, using(crate::proofs::StepLemmas::kept_is))]
    fn share_kept(&self) -> Result<MemKeeper<Text>, AllocError> {
        self.kept().share()
    }

    fn fail_next(&mut self) {
        self.keeper().fail_next();
    }

    #[tactic(auto, using(crate::proofs::StepLemmas::ok_is_untold, crate::proofs::StepLemmas::error_fits, crate::proofs::StepLemmas::verifier_settles, crate::proofs::StepLemmas::verifier_stops))]
    fn step(&mut self, alloc: Global, input: Input) -> Option<Vec<Letter<Ballot>>> {
        match self.handle(alloc, input) {
            Ok(letters) => Some(letters),
            Err(_) => None,
        }
    }

    fn spend(_input: Input) {}

    #[tactic(auto, using(crate::proofs::StepLemmas::verifier_refused, crate::proofs::StepLemmas::verifier_opened_up))]
    fn reopen(
        alloc: Global,
        u: u8,
        id: u8,
        keeper: &mut MemKeeper<Text>,
    ) -> Option<(KeptVerifier, Vec<Letter<Ballot>>)> {
        match Verifier::open(alloc, u, id, mem::replace(keeper, MemKeeper::new())) {
            Ok(opened) => Some(opened),
            Err((_, left)) => {
                *keeper = left;
                None
            }
        }
    }
}
