//! What a text and a state say of a process: laws. None of these functions does anything.

ghost use Rattle.process_parts.specs.Laws.{RestoredIsStored, StoredIsRestored, StoredIsOneRecord};

/// The record that is made of a text and its state is stored as them.
///
/// No code calls it: it is for readers.
pub fn what_is_restored_is_stored()
    ensures { RestoredIsStored }
{}

/// The record that is made of what was stored is the one that was stored, if the heads of the executors' states tell the
/// states apart. They do so if digests are distinct. `stored_of` says that the state is one of them, or the first one.
///
/// No code calls it: it is for readers.
pub fn what_is_stored_is_restored()
    ensures { StoredIsRestored }
{}

/// Two records that are stored as one text and one state are one record, on the same terms.
///
/// No code calls it: it is for readers.
pub fn stored_records_are_one()
    ensures { StoredIsOneRecord }
{}
