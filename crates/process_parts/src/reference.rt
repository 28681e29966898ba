//! The state that is stored, of which most executors are, and whether one is.

ghost use Rattle.std.specs.Prelude.{◌≡◌, ◌↔◌, IfOk, IfSome, IsTrue};
ghost use Rattle.rollback.specs.Chain.{alone_text};
ghost use Rattle.states.specs.State.{IsState};
ghost use Rattle.states.specs.StateRecord.{head_of_state};
ghost use Rattle.process_parts.specs.Parts.{IsPlainOf, IsAlone, IsExecutorState};

use exec_lines::{ExecutorRecord, Saved};
use keeper::{Keeper, MemKeeper};
use process_text::PlainRecord;
use states::{Head, State};
use std::alloc::{AllocError, Global};

/// The state of an executor, if its record was made of one in this process and has no tentative states.
fn lone_state(keeper: &MemKeeper<ExecutorRecord>) -> Option<&State>
    ensures { IfSome result (λ state. IsAlone keeper.now state.now) }
{
    let kept = keeper.load()?;
    let saved = kept.saved()?;
    let state = saved.chain.alone()?;
    Some(state)
}

/// The place of the executor with the newest of these states, or 0. It decides how much is written, and nothing else.
fn newest_place(executors: &[MemKeeper<ExecutorRecord>]) -> usize {
    let mut newest = 0usize;
    let mut number = 0u64;
    for place in 0..executors.len() {
        if let Some(state) = lone_state(&executors[place]) {
            if number < state.number() {
                newest = place;
                number = state.number();
            }
        }
    }
    newest
}

/// The state to be stored, shared: the newest one that an executor has without tentative states, or the first state if
/// there is none, as when all records are bytes that were read.
pub(crate) fn reference_state(
    alloc: Global,
    executors: &[MemKeeper<ExecutorRecord>],
) -> Result<State, AllocError>
    ensures { IfOk result (λ state. IsExecutorState executors.now state) }
{
    let place = newest_place(executors);
    if place < executors.len() {
        if let Some(state) = lone_state(&executors[place]) {
            return state.share();
        }
    }
    State::first(alloc)
}

/// The state of the chain, if it has this head and no tentative state is over it.
fn state_of_head<'s>(saved: &'s Saved, head: &Head) -> Option<&'s State>
    ensures state { IfSome result (λ state. IsState state.now) }
    ensures head { IfSome result (λ state. head_of_state state.now ≡ head.now) }
    ensures alone { IfSome result (λ state. saved.now.chain ≡ alone_text state.now) }
{
    let state = saved.chain.alone()?;
    state.is_state();
    if state.head().is_same(head) {
        Some(state)
    } else {
        None
    }
}

/// All of a record but its state, if the record is of a state of this head, without tentative states.
pub(crate) fn plain_in(kept: &ExecutorRecord, head: &Head) -> Option<PlainRecord>
    ensures { IfSome result (λ plain. IsPlainOf head.now plain kept.now) }
{
    let saved = kept.saved()?;
    let _state = state_of_head(saved, head)?;
    Some(PlainRecord {
        u: saved.u,
        id: saved.id,
        known: saved.known,
        standing: saved.standing,
    })
}
