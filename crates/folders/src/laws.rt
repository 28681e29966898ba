//! Why the newest of a majority is right.

ghost use Rattle.std.specs.Prelude.{◌≡◌, ℕ, List, length, map, count_by, is_some, All, false};
ghost use Rattle.folders.specs.declared.stamp.SaveStamp.{SaveStamp};
ghost use Rattle.folders.specs.Folders.{Folder, IsMajority, IsNewest, HasSave, found_in, is_saved_in, is_later_save};

/// If a save was finished in more than half of the folders, and more than half can be read, whoever begins with the newest
/// that is read begins with that save or a later one.
pub fn a_finished_save_is_found()
    ensures { (folders : List Folder) (save : SaveStamp) (at : ℕ)
        → IsMajority (count_by is_saved_in folders) (length folders)
        → All (HasSave save) folders
        → IsMajority (count_by is_some (map found_in folders)) (length folders)
        → (newest : IsNewest (map found_in folders) at)
        → is_later_save save newest.stamp ≡ false }
{}
