//! What a member of a site does next with the letters that it holds for its executor.
//!
//! It is built on std alone. A member that hands each letter to its executor as it comes falls out for good if it is a
//! little slower than the others: a decree then undoes the batch that is executed. So a member holds orders, decrees and
//! a parcel, and asks its `Following` what is next: to hand one of them in, to let a parcel go, to let an Ask or a Need
//! leave, or to wait. It has no clock: it is told each tick, a tenth of a second.
//!
//! The layer above uses `Following::next`, whose contract is the table `rules_of` in `specs/Rules.antt`: the first rule
//! that applies says what is next. `may_hold` says which letters are held, `is_over` which are not needed any more, and
//! `must_wait` when the primary waits for executors that are behind.
//!
//! Safety does not rest on it: an executor may be given any letter at any time, and a letter may be lost. No program uses
//! it yet.
#![tactic(auto)]

mod action;
mod finding;
mod following;
mod holding;
mod letter;
mod pace;
mod report;

pub use action::Action;
pub use following::Following;
pub use holding::{MOST_BYTES, MOST_LETTERS, is_over, may_hold};
pub use letter::HeldLetter;
pub use pace::{MOST_LAG, MOST_WAIT, must_wait};
pub use report::{ExecutorReport, MOST_MEMBERS};
