//! What is stored of a record.

ghost use Rattle.std.specs.Prelude.{◌≡◌, ◌↔◌, ◌⊎◌, Err, IfOk, IfErr, IsTrue};
ghost use Rattle.states.specs.StateRecord.{head_of_state};
ghost use Rattle.process_parts.specs.Parts.{HasMembers, HasRowsOf, IsStoredOf, IsExecutorState};

use crate::executor_rows::rows_of_executors;
use crate::proxy_rows::rows_of_proxies;
use crate::reference::reference_state;
use crate::verifier_rows::rows_of_verifiers;
use ensemble::ProcessRecord;
use process_text::{MOST_PROXIES, ProcessText};
use proto::Fault;
use states::State;
use std::alloc::{AllocError, Global};
use wire::Counted;

/// What is stored of a process: its text, and the state whose head and sessions are in the text. The items of the state are
/// stored apart.
pub struct StoredProcess {
    pub text: ProcessText,
    pub state: State,
}

impl Drop for StoredProcess {
    fn drop(self) {
        let StoredProcess { text: _, state: _ } = self;
    }
}

/// Whether the record has as many replicas and proxies as a text can have.
fn has_members(process: &ProcessRecord) -> bool
    ensures { IsTrue result ↔ HasMembers process.now }
{
    let members = 2 * usize::from(process.u()) + 1;
    process.executors().len() == members
        && process.verifiers().len() == members
        && process.proxy_count() <= MOST_PROXIES
}

/// The text, beside this state.
fn text_beside(
    alloc: Global,
    process: &ProcessRecord,
    state: &State,
) -> Result<ProcessText, AllocError>
    ensures head { IfOk result (λ text. text.head ≡ head_of_state state.now) }
    ensures sessions { IfOk result (λ text. text.sessions ≡ state.now.sessions) }
    ensures rows { IfOk result (λ text. HasRowsOf text process.now) }
{
    let head = state.head();
    let executors = rows_of_executors(alloc, process.executors(), &head)?;
    let verifiers = rows_of_verifiers(alloc, process.verifiers())?;
    let proxies = rows_of_proxies(alloc, process.proxies())?;
    let sessions = state.sessions().clone()?;
    Ok(ProcessText {
        u: process.u(),
        head,
        sessions,
        executors: Counted::new(executors),
        verifiers: Counted::new(verifiers),
        proxies: Counted::new(proxies),
    })
}

/// What is stored, if it is this state.
fn stored_with(
    alloc: Global,
    process: &ProcessRecord,
    state: State,
) -> Result<StoredProcess, AllocError>
    requires { HasMembers process.now }
    ensures state { IfOk result (λ stored. stored.state ≡ state) }
    ensures stored { IfOk result (λ stored. IsStoredOf stored.text stored.state process.now) }
{
    state.is_state();
    let _sessions = state.sessions();
    let _u = process.u();
    let _proxies = process.proxies();
    let text = text_beside(alloc, process, &state)?;
    Ok(StoredProcess { text, state })
}

/// What is stored of the record of a process. The state is shared with it: the newest one that an executor has without
/// tentative states, if its record was made in this process, or else the first state. An executor of a state with the same
/// head costs less than a hundred bytes, and every other one the text of its whole record. No items are compared.
///
/// BadRecord: the record is not of `2u + 1` executors and as many verifiers, or of more than `MOST_PROXIES` proxies.
/// NoMemory: an allocation failed. There is no other error.
pub fn stored_of(alloc: Global, process: &ProcessRecord) -> Result<StoredProcess, Fault>
    ensures stored { IfOk result (λ stored. IsStoredOf stored.text stored.state process.now) }
    ensures state { IfOk result (λ stored. IsExecutorState process.now.executors stored.state) }
    ensures bad { result ≡ Err Fault.BadRecord → HasMembers process.now → ⊥ }
    ensures only { IfErr result (λ fault. (fault ≡ Fault.NoMemory) ⊎ (fault ≡ Fault.BadRecord)) }
{
    if !has_members(process) {
        return Err(Fault::BadRecord);
    }
    let state = reference_state(alloc, process.executors())?;
    Ok(stored_with(alloc, process, state)?)
}
