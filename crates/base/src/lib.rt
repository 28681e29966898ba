//! What all other crates may be built on: a map in one sorted vector of shared entries, lists with
//! limits, and texts in pieces that are shared.
//!
//! It is built on `thiserror` alone, for `Fault`, the refusals of all calls. The layers above use `SortedMap` (a clone copies pointers, and none
//! of the keys and values), `Listed`, and `Text`; and, in proofs, what is known of entries that are
//! sorted by their keys (`Sorted`, `MapLemmas`).
#![tactic(auto)]

mod entries;
mod entry;
mod fault;
mod key;
mod listed;
mod shared_list;
mod sorted_map;
mod text;

pub use entry::Entry;
pub use fault::Fault;
pub use key::MapKey;
pub use listed::Listed;
pub use shared_list::SharedList;
pub use sorted_map::SortedMap;
pub use text::{Piece, Text};
