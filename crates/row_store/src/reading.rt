//! The rows of a table, in the order of their numbers.

ghost use Rattle.std.specs.Prelude.{◌≡◌, ◌<◌, IsTrue, IfOk, OnOk, OnErr, IsSome, [], false};
ghost use Rattle.sqlite_trees.specs.declared.store.Shape.TheVariants as shape;
ghost use Rattle.sqlite_trees.specs.View.{IsClean, KeepsSchema, KeepsCommitted, IsQuiet};
ghost use Rattle.row_store.specs.Read.{StoreIsReading, ReadsRows, OnlyMoves};
ghost use Rattle.row_store.specs.Saved.{StoreRests, IsSame, HasTables};

use sqlite_trees::error::StoreError;
use sqlite_trees::store::{Direction, Store};
use sqlite_value::row::Row;
use std::alloc::Global;

/// Places the cursor before the first row.
#[tactic(auto, using(crate::proofs::ReadLemmas::sought_all))]
fn begin<S: Store>(alloc: Global, store: &mut S, table: u32) -> Result<(), StoreError>
    requires table { IsClean (S.view store.old) → (S.view store.old).shape table ≡ shape.Table }
    ensures begun { OnOk result (IsClean (S.view store.new) → StoreIsReading (S.view store.new) [] ((S.view store.old).trees table)) }
    ensures sound { OnOk result (IsClean (S.view store.new) → (S.view store.old).is_broken ≡ false) }
    ensures moves { OnOk result (IsClean (S.view store.new) → OnlyMoves (S.view store.old) (S.view store.new)) }
    ensures live { OnOk result (IsSome ((S.view store.new).cursors 0)) }
    ensures old { OnErr result (IsClean (S.view store.new) → KeepsCommitted (S.view store.old) (S.view store.new)) }
    ensures schema { KeepsSchema (S.view store.old) (S.view store.new) }
    ensures quiet { IsQuiet S.view S.faults S.recovers S.is_shielded store.old store.new }
{
    let key = Row::new(alloc);
    store.seek(0, table, &key, Direction::Forward)
}

/// Reads the row at the cursor, if there is one, behind these.
fn step<S: Store>(alloc: Global, store: &mut S, rows: &mut Vec<Row>) -> Result<bool, StoreError>
    requires live { IsSome ((S.view store.old).cursors 0) }
    ensures read { IfOk result (λ found. IsClean (S.view store.new) → ReadsRows (S.view store.old) rows.old.items found (S.view store.new) rows.new.items) }
    ensures moves { OnOk result (IsClean (S.view store.new) → OnlyMoves (S.view store.old) (S.view store.new)) }
    ensures live { OnOk result (IsSome ((S.view store.new).cursors 0)) }
    ensures old { OnErr result (IsClean (S.view store.new) → KeepsCommitted (S.view store.old) (S.view store.new)) }
    ensures schema { KeepsSchema (S.view store.old) (S.view store.new) }
    ensures quiet { IsQuiet S.view S.faults S.recovers S.is_shielded store.old store.new }
{
    let mut row = Row::new(alloc);
    let found = store.next(0, &mut row)?;
    if found {
        rows.push(row)?;
    }
    Ok(found)
}

/// All rows of the table.
fn read<S: Store>(alloc: Global, store: &mut S, table: u32) -> Result<Vec<Row>, StoreError>
    requires table { IsClean (S.view store.old) → (S.view store.old).shape table ≡ shape.Table }
    ensures found { IfOk result (λ rows. IsClean (S.view store.new) → rows.items ≡ (S.view store.old).trees table) }
    ensures sound { OnOk result (IsClean (S.view store.new) → (S.view store.old).is_broken ≡ false) }
    ensures moves { OnOk result (IsClean (S.view store.new) → OnlyMoves (S.view store.old) (S.view store.new)) }
    ensures old { OnErr result (IsClean (S.view store.new) → KeepsCommitted (S.view store.old) (S.view store.new)) }
    ensures schema { KeepsSchema (S.view store.old) (S.view store.new) }
    ensures quiet { IsQuiet S.view S.faults S.recovers S.is_shielded store.old store.new }
{
    let mut rows = Vec::new(alloc);
    begin(alloc, store, table)?;
    for _ in 0..u64::MAX {
        if !step(alloc, store, &mut rows)? {
            return Ok(rows);
        }
    }
    Err(StoreError::OutOfMemory)
}

/// All rows of the table. After an error the store is as it was, or shut.
pub fn read_table<S: Store>(
    alloc: Global,
    store: &mut S,
    tables: u32,
    table: u32,
) -> Result<Vec<Row>, StoreError>
    requires tables { IsClean (S.view store.old) → HasTables tables (S.view store.old) }
    requires table { table < tables }
    requires rest { IsClean (S.view store.old) → StoreRests (S.view store.old) }
    ensures found { IfOk result (λ rows. IsClean (S.view store.new) → IsTrue (S.view store.new).is_open × (rows.items ≡ (S.view store.old).committed table)) }
    ensures same { IsClean (S.view store.new) → IsSame (S.view store.old) (S.view store.new) }
    ensures rest { IsClean (S.view store.new) → StoreRests (S.view store.new) }
    ensures tables { IsClean (S.view store.new) → HasTables tables (S.view store.new) }
    ensures quiet { IsQuiet S.view S.faults S.recovers S.is_shielded store.old store.new }
{
    match read(alloc, store, table) {
        Ok(rows) => Ok(rows),
        Err(error) => {
            store.rollback();
            Err(error)
        }
    }
}
