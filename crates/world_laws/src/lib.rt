//! What holds of every world that is reached: its verifiers choose one decree at each log index, and keep it.
//!
//! It is built on `worlds`, which says what a world is, and on `agreement_laws`, whose machine of verifiers each world is.
//! The layers above call the laws: each is the contract of a function that does nothing.
#![tactic(auto)]

mod laws;

pub use laws::{
    chosen_is_backed_in_worlds, chosen_is_kept_in_worlds, chosen_list_only_grows_in_worlds,
    chosen_stands_in_worlds, one_is_chosen_in_worlds, worlds_are_of_machines,
};
