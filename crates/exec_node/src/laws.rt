//! What every step keeps, and what a record gives back. None of these functions does anything: what
//! each says is its contract.

ghost use Rattle.exec_node.specs.Laws.{UnfitInputStays, UnsavedExecutorStays, SavedIsExecutorRecord, OneExecutorState, OldRecordsAreRenewed, LinkedStays, RunIsPlayed};

/// An input that fits no line changes nothing, saves nothing and is answered by no letter.
pub fn unfit_input_changes_nothing()
    ensures { UnfitInputStays }
{}

/// What a crash leaves is what was saved: a step that saves nothing leaves it as it was, a record
/// of a chain whose members are each over just the state before can be read, and it gives that back
/// and nothing else. What a record of version 1 gives can be saved as a record of today.
///
/// No code calls it: it is for readers.
pub fn records_outlive_a_crash()
    ensures unsaved { UnsavedExecutorStays }
    ensures read { SavedIsExecutorRecord }
    ensures one { OneExecutorState }
    ensures renewed { OldRecordsAreRenewed }
{}

/// Each member of a chain is over just the state before it, and work over just the tip: every input
/// keeps that but one that hands in a tentative state, so a record of the chain can be read. The
/// states of the chain after the step are taken to keep what their types keep.
///
/// No code calls it: it is for readers.
pub fn linked_chains_stay_linked()
    ensures { LinkedStays }
{}

/// A job that was run on threads leaves executor, record and letters as some steps and ends of groups
/// leave them that are handed in one by one.
pub fn a_run_is_played()
    ensures { RunIsPlayed }
{}
