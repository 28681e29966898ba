//! Changes that are committed together.

ghost use Rattle.std.specs.Prelude.{◌≡◌, ◌⊎◌, ◌≤◌, IsTrue, IfErr, OnOk, OnErr};
ghost use Rattle.sqlite_trees.specs.Tree.{Trees};
ghost use Rattle.sqlite_trees.specs.View.{doubt, IsClean, KeepsSchema, IsQuiet, KeepsCommitted};
ghost use Rattle.row_store.specs.Saved.{ChangeFits, ChangesFit, HasTables, after_one, after, SeesRows, StoreRests, IsSaved, IsSame, HasReason, HasReasonOfOne};

use crate::change::RowChange;
use sqlite_trees::error::StoreError;
use sqlite_trees::store::Store;

/// Makes one change.
fn make<S: Store>(store: &mut S, tables: u32, change: &RowChange) -> Result<(), StoreError>
    requires tables { IsClean (S.view store.old) → HasTables tables (S.view store.old) }
    requires fits { ChangeFits tables change.now }
    ensures ok { OnOk result (IsClean (S.view store.new) → SeesRows (S.view store.old) (after_one (S.view store.old).trees change.now) (S.view store.new)) }
    ensures old { OnErr result (IsClean (S.view store.new) → KeepsCommitted (S.view store.old) (S.view store.new)) }
    ensures reason { IsClean (S.view store.new) → IfErr result (HasReasonOfOne (S.view store.old) (S.faults store.old) (S.faults store.new) change.now) }
    ensures schema { KeepsSchema (S.view store.old) (S.view store.new) }
    ensures quiet { IsQuiet S.view S.faults S.recovers S.is_shielded store.old store.new }
{
    match change {
        RowChange::Put { table, row } => store.put(*table, row),
        RowChange::Remove { table, number } => store.delete(*table, *number),
    }
}

/// Makes all changes, in order.
fn make_all<S: Store>(store: &mut S, tables: u32, changes: &[RowChange]) -> Result<(), StoreError>
    requires tables { IsClean (S.view store.old) → HasTables tables (S.view store.old) }
    requires fit { ChangesFit tables changes.now }
    ensures ok { OnOk result (IsClean (S.view store.new) → SeesRows (S.view store.old) (after changes.now (S.view store.old).trees) (S.view store.new)) }
    ensures old { OnErr result (IsClean (S.view store.new) → KeepsCommitted (S.view store.old) (S.view store.new)) }
    ensures reason { IsClean (S.view store.new) → IfErr result (HasReason (S.view store.old) (S.faults store.old) (S.faults store.new) changes.now) }
    ensures schema { KeepsSchema (S.view store.old) (S.view store.new) }
    ensures quiet { IsQuiet S.view S.faults S.recovers S.is_shielded store.old store.new }
{
    for change in changes {
        make(store, tables, change)?;
    }
    Ok(())
}

/// Makes all changes, and commits them. After an error none is made.
pub fn save<S: Store>(store: &mut S, tables: u32, changes: &[RowChange]) -> Result<(), StoreError>
    requires tables { IsClean (S.view store.old) → HasTables tables (S.view store.old) }
    requires rest { IsClean (S.view store.old) → StoreRests (S.view store.old) }
    requires fit { ChangesFit tables changes.now }
    ensures saved { OnOk result (IsClean (S.view store.new) → IsSaved (S.view store.old) changes.now (S.view store.new)) }
    ensures same { OnErr result (IsClean (S.view store.new) → IsSame (S.view store.old) (S.view store.new)) }
    ensures reason { IsClean (S.view store.new) → IfErr result (HasReason (S.view store.old) (S.faults store.old) (S.faults store.new) changes.now) }
    ensures crash { IsClean (S.view store.new) → (db : Trees) → S.recovers store.new db → S.recovers store.old db ⊎ (db ≡ after changes.now (S.view store.old).committed) }
    ensures rest { IsClean (S.view store.new) → StoreRests (S.view store.new) }
    ensures tables { IsClean (S.view store.new) → HasTables tables (S.view store.new) }
    ensures clean { doubt (S.view store.old).is_clean ≤ doubt (S.view store.new).is_clean }
    ensures counts { S.faults store.old ≤ S.faults store.new }
    ensures shield { S.is_shielded store.old → S.is_shielded store.new }
{
    match make_all(store, tables, changes) {
        Ok(()) => store.commit(),
        Err(error) => {
            store.rollback();
            Err(error)
        }
    }
}
