//! Keepers that have a record of these bytes.

use crate::tests::{Executor, Kept, record};
use base::Text;
use exec_lines::ExecutorRecord;
use exec_node::ExecNode;
use keeper::{Keeper, MemKeeper, ToText};
use proto::Fault;
use std::alloc::Global;

/// A keeper that has these bytes as its record.
pub fn keeper_of(alloc: Global, bytes: &[u8]) -> Result<Kept, Fault> {
    let mut text = Text::new(alloc);
    text.put(bytes)?;
    let mut keeper = MemKeeper::new();
    if keeper.failures() == 0 {
        keeper.save(ExecutorRecord::of_text(text))?;
    }
    Ok(keeper)
}

fn text_of(alloc: Global, record: &ExecutorRecord) -> Result<Vec<u8>, Fault> {
    Ok(record.to_text(alloc)?.joined(alloc)?)
}

/// The record of today of an executor.
fn own_text(alloc: Global, executor: &Executor) -> Result<Vec<u8>, Fault> {
    text_of(alloc, &executor.state().record(alloc, 0, 0)?)
}

/// The executor's record, which is what is kept. `NotOpen` if it is not.
fn own_record(alloc: Global, executor: &mut Executor) -> Result<Vec<u8>, Fault> {
    let own = own_text(alloc, executor)?;
    let keeper: &Kept = executor.keeper();
    if record(alloc, keeper)? == own {
        Ok(own)
    } else {
        Err(Fault::NotOpen)
    }
}

/// None if the bytes are refused as a bad record, and are kept as they were.
fn refused(
    alloc: Global,
    fault: Fault,
    keeper: &Kept,
    bytes: &[u8],
) -> Result<Option<Vec<u8>>, Fault> {
    if fault == Fault::BadRecord && record(alloc, keeper)?.as_slice() == bytes {
        Ok(None)
    } else {
        Err(Fault::NotOpen)
    }
}

/// The record of the executor that was opened with these bytes. None if they are refused, and are kept as they
/// were then.
pub fn kept_after(alloc: Global, bytes: &[u8]) -> Result<Option<Vec<u8>>, Fault> {
    match ExecNode::open(alloc, 0, 0, keeper_of(alloc, bytes)?) {
        Ok((mut executor, _)) => {
            let kept = own_record(alloc, &mut executor);
            drop(executor.end());
            Ok(Some(kept?))
        }
        Err((fault, keeper)) => refused(alloc, fault, &keeper, bytes),
    }
}
