//! A verifier: it decides with the others which decree is at each index of the log.
//!
//! It is built on `view_change`, `decrees` and `keeper`. The layer above uses `Verifier::handle`: an Ok
//! is the written step, state, letters in order and saved record, and after an error the verifier
//! is stopped with the record that it had before that call.
#![tactic(auto)]

mod input;
mod laws;
mod letters;
mod lines;
mod outcome;
mod proposing;
mod record;
mod restore;
mod state;
mod step;
mod tally;
mod verifier;

pub use crate::verifier::Verifier;
pub use input::Input;
pub use laws::{
    decrees_are_learned_in_order, records_outlive_a_crash, unfit_input_changes_nothing,
    views_never_fall,
};
