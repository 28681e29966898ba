//! Links between threads: what one end puts in at the back, some end takes out at the front.
//!
//! A link holds at most `MOST_ITEMS` items. Any number of ends share it, each in a thread of its own. What an
//! end knows of the link is a value that contracts see: its own puts and takes, and a beginning of
//! the puts and of the takes of all ends.
//!
//! It is built on `crossbeam_channel` (its bounded channel under a rule) and `atomic_table` (lists of
//! what ends know). The layers above use `Link::take`: whatever the other ends do, what was taken
//! is a beginning of what was put, the item is the last of it, and each put of this end is
//! among the puts once, in its order. That a call returns no contract says.
#![tactic(auto)]

mod ends;
mod line;

pub use ends::Link;
pub use line::{Line, MOST_ITEMS, View};
