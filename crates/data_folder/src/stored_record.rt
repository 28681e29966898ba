//! What is saved of a record.

ghost use Rattle.std.specs.Prelude.{IfOk};
ghost use Rattle.data_folder.specs.Text.{TellsService};
ghost use Rattle.data_folder.specs.Items.{TellsState};

use crate::fault::record_fault;
use crate::service_text::text_of;
use process_parts::stored_of;
use proto::Fault;
use service::{SaveFault, ServiceRecord};
use states::State;
use std::alloc::Global;

/// What is saved of a record: a text, and the state whose items are saved beside it. It is made once for all folders.
pub struct StoredRecord {
    pub text: Vec<u8>,
    pub state: State,
}

impl Drop for StoredRecord {
    fn drop(self) {
        let StoredRecord { text: _, state: _ } = self;
    }
}

/// What is saved of this record, or why it cannot be.
fn stored_with(alloc: Global, kept: &ServiceRecord) -> Result<StoredRecord, Fault>
    ensures tells { IfOk result (λ made. TellsService kept.now made.text.items) }
    ensures state { IfOk result (λ made. TellsState kept.now made.text.items made.state) }
{
    let stored = stored_of(alloc, kept.replicas())?;
    if !stored.text.is_process() {
        return Err(Fault::BadRecord);
    }
    let text = text_of(alloc, &stored.text, kept.next())?;
    let state = stored.state.share()?;
    Ok(StoredRecord { text, state })
}

impl StoredRecord {
    /// What is saved of this record. The state is shared with it. `Unstorable`: the record is none that can be stored.
    /// `NoMemory` is the only other error.
    pub fn of(alloc: Global, kept: &ServiceRecord) -> Result<StoredRecord, SaveFault>
        ensures tells { IfOk result (λ stored. TellsService kept.now stored.text.items) }
        ensures state { IfOk result (λ stored. TellsState kept.now stored.text.items stored.state) }
    {
        match stored_with(alloc, kept) {
            Ok(stored) => Ok(stored),
            Err(fault) => Err(record_fault(fault)),
        }
    }
}
