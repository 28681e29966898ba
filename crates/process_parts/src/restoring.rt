//! The record that is stored as a text and a state.

ghost use Rattle.std.specs.Prelude.{◌≡◌, IfOk};
ghost use Rattle.process_text.specs.Text.{IsProcessText};
ghost use Rattle.process_text.specs.StateOf.{IsStateOf};
ghost use Rattle.process_parts.specs.Parts.{restored_process, IsStoredOf};

use crate::executor_rows::executors_of;
use crate::proxy_rows::proxies_of;
use crate::verifier_rows::verifiers_of;
use ensemble::ProcessRecord;
use process_text::ProcessText;
use states::State;
use std::alloc::{AllocError, Global};

/// The record of the process whose text this is, with the state that was stored beside it. All executors that are stored
/// by their fields share the state, and the others share the text of their records.
///
/// What `process_text::read` gave is the text of a process, and what `ProcessText::state` gave of it is its state; then the
/// record is stored as them. `what_is_stored_is_restored` says when it is the record that was there. The only error is a
/// failed allocation.
pub fn record_of(
    alloc: Global,
    text: &ProcessText,
    state: &State,
) -> Result<ProcessRecord, AllocError>
    requires { IsProcessText text.now }
    ensures restored { IfOk result (λ process. process ≡ restored_process text.now state.now) }
    ensures stored { IsStateOf text.now state.now → IfOk result (λ process. IsStoredOf text.now state.now process) }
{
    let proxies = proxies_of(alloc, text.proxies.as_slice())?;
    let executors = executors_of(alloc, text.executors.as_slice(), state)?;
    let verifiers = verifiers_of(alloc, text.verifiers.as_slice())?;
    Ok(ProcessRecord::of(text.u, proxies, executors, verifiers))
}
