//! A folder with one of several copies of a record.

use crate::stored_record::StoredRecord;
use folders::SaveStamp;
use service::SaveFault;
use std::alloc::Global;

/// Which of several copies of one site's data a folder has.
#[derive(Clone, Copy, Debug, PartialEq, Eq)]
pub struct CopyId {
    /// Which site's data it is. It is written only if there are several folders.
    pub site: u64,
    /// Which of the folders it is, from 0.
    pub folder: u32,
    /// How many folders there are.
    pub folders: u32,
}

/// A folder with a copy of a record.
pub trait SaveCopy {
    ghost use Rattle.std.specs.Prelude.{Option, OnOk, OnErr};
    ghost use Rattle.sqlite_trees.specs.Tree.{Trees};
    ghost use Rattle.states.specs.State.{StateView};
    ghost use Rattle.data_folder.specs.Found.{SavedText, FindsOnly, FindsOldOr};
    ghost use Rattle.data_folder.specs.Items.{AreStatesTold, LeavesRecord, LeavesOldOr};

    /// Another process may find this in it, if this one ends now: the text of a save, or none. It is what may be found
    /// after a crash at any moment, also during the save before.
    ghost may_find: { Self → Option SavedText → Type 0 };

    /// A crash may leave a file with these tables in it.
    ghost may_leave: { Self → Trees → Type 0 };

    /// Its file has the items of this state: the one that was read when it was opened, or saved last.
    ghost has_items: { Self → StateView → Type 0 };

    /// Saves what is stored of a record in place of the last one, with this stamp: all of it or nothing. `Disk` stays: no
    /// later save succeeds.
    ///
    /// What is written is what differs from the state of the last save, as far as digests tell. So the file then has the
    /// items of this state if digests tell the two states apart: clauses `items`, `left` and `stays`.
    fn save_copy(
        &mut self,
        alloc: Global,
        id: CopyId,
        stamp: SaveStamp,
        stored: &StoredRecord,
    ) -> Result<(), SaveFault>
        ensures saved { OnOk result (FindsOnly (may_find self.new) (record { stamp = stamp; text = stored.now.text.items })) }
        ensures crash { FindsOldOr (may_find self.old) (may_find self.new) (record { stamp = stamp; text = stored.now.text.items }) }
        ensures items { OnOk result ((last : StateView) → has_items self.old last → AreStatesTold last stored.now.state → LeavesRecord (may_leave self.new) (has_items self.new) (record { stamp = stamp; text = stored.now.text.items }) stored.now.state) }
        ensures left { (last : StateView) → has_items self.old last → AreStatesTold last stored.now.state → LeavesOldOr (may_leave self.old) (may_leave self.new) (record { stamp = stamp; text = stored.now.text.items }) stored.now.state }
        ensures stays { OnErr result ((last : StateView) → has_items self.old last → has_items self.new last) };
}
