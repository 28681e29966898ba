//! The rows of executors, and back.

ghost use Rattle.std.specs.Prelude.{◌≡◌, map, IfOk};
ghost use Rattle.std.specs.List.{AllZip};
ghost use Rattle.process_parts.specs.Parts.{plain_record, stored_record, executor_of_row, IsStoredRecord, IsStoredAs, IsExecutorRow};

use crate::reference::plain_in;
use exec_lines::{ExecutorRecord, Saved};
use keeper::{Keeper, MemKeeper, ToText};
use process_text::{ExecutorRow, LongText, PlainRecord, StoredRecord};
use rollback::SavedChain;
use states::{Head, State};
use std::alloc::{AllocError, Global};

/// What is stored of a record beside a state of this head.
fn stored_beside(
    alloc: Global,
    kept: &ExecutorRecord,
    head: &Head,
) -> Result<StoredRecord, AllocError>
    ensures { IfOk result (λ stored. IsStoredRecord head.now stored kept.now) }
{
    match plain_in(kept, head) {
        Some(plain) => Ok(StoredRecord::Plain(plain)),
        None => Ok(StoredRecord::Whole(LongText::new(kept.to_text(alloc)?))),
    }
}

/// The same of an executor's record, if it has one.
fn stored_executor(
    alloc: Global,
    keeper: &MemKeeper<ExecutorRecord>,
    head: &Head,
) -> Result<StoredRecord, AllocError>
    ensures { IfOk result (λ stored. IsStoredAs head.now stored keeper.now.saved) }
{
    match keeper.load() {
        None => Ok(StoredRecord::Nothing),
        Some(kept) => stored_beside(alloc, kept, head),
    }
}

/// The row of an executor, beside a state of this head.
fn row_of_executor(
    alloc: Global,
    keeper: &MemKeeper<ExecutorRecord>,
    head: &Head,
) -> Result<ExecutorRow, AllocError>
    ensures { IfOk result (λ row. IsExecutorRow head.now row keeper.now) }
{
    let stored = stored_executor(alloc, keeper, head)?;
    Ok(ExecutorRow {
        stored,
        failures: keeper.failures(),
        fails_next: keeper.is_set_to_fail(),
    })
}

/// A row for each executor, beside a state of this head.
pub(crate) fn rows_of_executors(
    alloc: Global,
    keepers: &[MemKeeper<ExecutorRecord>],
    head: &Head,
) -> Result<Vec<ExecutorRow>, AllocError>
    ensures { IfOk result (λ rows. AllZip (IsExecutorRow head.now) rows.items keepers.now) }
{
    let mut rows = Vec::with_capacity(alloc, keepers.len())?;
    for keeper in keepers {
        rows.push(row_of_executor(alloc, keeper, head)?)?;
    }
    Ok(rows)
}

/// The record of these fields and this state, which it shares.
fn plain_of(alloc: Global, plain: &PlainRecord, state: &State) -> Result<ExecutorRecord, AllocError>
    ensures { IfOk result (λ kept. kept ≡ plain_record plain.now state.now) }
{
    let saved = Saved {
        u: plain.u,
        id: plain.id,
        known: plain.known,
        standing: plain.standing,
        chain: SavedChain::of_state(alloc, state.share()?),
    };
    ExecutorRecord::of_saved(alloc, saved)
}

/// The record that is stored so beside this state.
fn record_in(
    alloc: Global,
    stored: &StoredRecord,
    state: &State,
) -> Result<Option<ExecutorRecord>, AllocError>
    ensures { IfOk result (λ kept. kept ≡ stored_record state.now stored.now) }
{
    match stored {
        StoredRecord::Nothing => Ok(None),
        StoredRecord::Plain(plain) => Ok(Some(plain_of(alloc, plain, state)?)),
        StoredRecord::Whole(text) => Ok(Some(ExecutorRecord::of_text(text.as_text().clone()?))),
    }
}

/// The keeper of a row beside this state.
fn executor_of(
    alloc: Global,
    row: &ExecutorRow,
    state: &State,
) -> Result<MemKeeper<ExecutorRecord>, AllocError>
    ensures { IfOk result (λ keeper. keeper ≡ executor_of_row state.now row.now) }
{
    let kept = record_in(alloc, &row.stored, state)?;
    let mut keeper = MemKeeper::of(kept, row.failures);
    if row.fails_next {
        keeper.fail_next();
    }
    Ok(keeper)
}

/// The keeper of each row beside this state.
pub(crate) fn executors_of(
    alloc: Global,
    rows: &[ExecutorRow],
    state: &State,
) -> Result<Vec<MemKeeper<ExecutorRecord>>, AllocError>
    ensures { IfOk result (λ keepers. keepers.items ≡ map (executor_of_row state.now) rows.now) }
{
    let mut keepers = Vec::with_capacity(alloc, rows.len())?;
    for row in rows {
        keepers.push(executor_of(alloc, row, state)?)?;
    }
    Ok(keepers)
}
