//! The slot of an executor.

ghost use Rattle.std.specs.Prelude.{refl};
ghost use Rattle.slots.specs.Slots.{executor_kept, executor_told, ExecutorSettles, ExecutorReopens};
ghost use Rattle.slots.specs.UpSlots.{executor_up};

use crate::kept_node::KeptNode;
use crate::node_slot::NodeSlot;
use decrees::Letter;
use exec_lines::{Body, ExecutorRecord, Input};
use exec_node::{ExecNode, unfit_input_changes_nothing};
use keeper::MemKeeper;
use proto::Fault;
use std::alloc::{AllocError, Global};
use std::mem;

/// An executor over a keeper in memory.
pub type KeptExecutor = ExecNode<MemKeeper<ExecutorRecord>>;

/// The slot of an executor. It cannot be dropped, since an executor cannot: `end` ends it.
pub type ExecutorSlot = NodeSlot<KeptExecutor>;

impl KeptNode for ExecNode<MemKeeper<ExecutorRecord>> {
    type Record = ExecutorRecord;

    type Input = Input;

    type Body = Body;

    ghost kept = { executor_kept };

    ghost up = { executor_up };

    ghost told = { executor_told };

    ghost settles = { ExecutorSettles };

    ghost reopens = { ExecutorReopens };

    ghost down_ignores = { λ _ _. (refl, refl) };

    ghost gone_ignores = { λ _ _. (refl, refl) };

    ghost up_stays = { λ _ _ _. (refl, refl) };

    ghost gone_stays = { λ _ _ _. (refl, refl) };

    #[tactic(auto, using(crate::proofs::StepLemmas::kept_is))]
    fn into_keeper(self) -> MemKeeper<ExecutorRecord> {
        self.end()
    }

    #[tactic(auto, using(crate::proofs::StepLemmas::kept_is))]
    fn share_kept(&self) -> Result<MemKeeper<ExecutorRecord>, AllocError> {
        self.kept().share()
    }

    fn fail_next(&mut self) {
        self.keeper().fail_next();
    }

    /// If a tentative state is refused nothing changes, and nothing is sent.
    #[tactic(auto, using(crate::proofs::StepLemmas::ok_is_untold, crate::proofs::StepLemmas::executor_settles))]
    fn step(&mut self, alloc: Global, input: Input) -> Option<Vec<Letter<Body>>> {
        match self.handle(alloc, input) {
            Ok(letters) => Some(letters),
            Err(fault) => match fault {
                Fault::Unfit => {
                    unfit_input_changes_nothing();
                    Some(Vec::new(alloc))
                }
                _ => None,
            },
        }
    }

    fn spend(input: Input) {
        input.spend();
    }

    #[tactic(auto, using(crate::proofs::StepLemmas::executor_refused, crate::proofs::StepLemmas::executor_opened_up))]
    fn reopen(
        alloc: Global,
        u: u8,
        id: u8,
        keeper: &mut MemKeeper<ExecutorRecord>,
    ) -> Option<(KeptExecutor, Vec<Letter<Body>>)> {
        match ExecNode::open(alloc, u, id, mem::replace(keeper, MemKeeper::new())) {
            Ok(opened) => Some(opened),
            Err((_, left)) => {
                *keeper = left;
                None
            }
        }
    }
}
