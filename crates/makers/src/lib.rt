//! Events made at random: what a line `random` of a schedule stands for, event by event.
//!
//! It is built on `events`, whose events it makes, and on `rand_pcg` and `rand_core`, whose generator
//! gives the words. The layer above, which plays schedules, uses `Maker::event`: it gives the event that
//! the table (`specs/Table.antt`) makes of the next three words. So the same seed makes the same events,
//! in each world of the same size in which as many letters were sent.
#![tactic(auto)]

mod maker;
mod table;

pub use maker::Maker;
