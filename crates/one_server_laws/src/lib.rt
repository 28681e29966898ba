//! Laws of what worlds show, whatever happens in them: all that clients were given, and all that executors
//! have committed, is of one run of a single server, which later events only extend; and the last state of
//! that run is not lost.
//!
//! It is built on `worlds` (what all nodes do, stepped by events, and which decrees are chosen), on `custody_laws`
//! (the machine of executors by what they have saved), on `run_laws` (the run that chosen decrees make) and
//! on `client` (what any inputs of a client lead to). Its laws come in three parts, each over the one before:
//! what the executors of a world keep (`executors`), what clients ask and are answered (`requests`), and the
//! one server that a play shows (`laws`). The layer above uses the last two laws, each the contract of a
//! function that does nothing: `world::play` has them as its clauses.
#![tactic(auto)]

mod executors;
mod laws;
mod requests;

pub use executors::{
    chosen_is_made_in_worlds, committed_is_chosen_in_worlds, each_executor_has_one_state_in_worlds,
    executors_keep_in_worlds, met_are_told_apart_in_worlds, records_are_of_one_state,
    worlds_are_of_executor_machines,
};
pub use laws::{executors_keep_the_run, worlds_are_in_time, worlds_are_of_one_server};
pub use requests::{
    beginnings_are_reached, executed_is_asked_in_worlds, executed_was_cut_in_worlds,
    given_is_replied_in_worlds,
};
