//! Where a node keeps its record, so that it is found again after a crash.
//!
//! It is built on `base` (`Text`) and `proto` (`Fault`). The layer above uses `save_record`: on Ok the
//! record is the value that was given, and after an error it is the old one, whole, and the count of
//! failures rose or was at its limit. What can be kept is a `ToText`: a value that stands for bytes, and
//! shares what it has with the node. Contracts speak of the bytes. A keeper that is set to fail the next
//! save does.
#![tactic(auto)]

mod keeper;
mod memory;
mod to_text;

pub use crate::keeper::{Keeper, save_record};
pub use memory::MemKeeper;
pub use to_text::ToText;
