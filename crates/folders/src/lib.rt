//! Which of several folders' records counts.
//!
//! It is built on std alone. Each folder has a copy of one record, with the stamp of the save that wrote it. At a start
//! some folders cannot be read, and some have an old copy. `newest` is the folder to begin with, if more than half can be
//! read. `a_finished_save_is_found` says why that is right: if a save is in more than half of the folders, its record or a
//! later one is found.
//!
//! `data_folders` calls `newest` at a start; `shelf` and `data_folder` use `SaveStamp` alone.
#![tactic(auto)]

mod laws;
mod majority;
mod stamp;

pub use laws::a_finished_save_is_found;
pub use majority::newest;
pub use stamp::SaveStamp;
