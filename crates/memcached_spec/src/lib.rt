//! One memcached server, and what it means that a history of its clients is linearizable: definitions, and
//! two laws of them. Nothing here knows of replicas.
//!
//! It is built on `events` (a history is a list of events and what clients were given by then), `item_steps`
//! (the steps of a command, and what each does and answers), `items` and `proto`. To read: `specs/Server.antt`,
//! the server; `specs/Order.antt`, `IsLinearizable`. The layers above say that of plays and of the server
//! that runs.
#![tactic(auto)]

mod laws;

pub use laws::{
    a_read_shows_what_was_stored_before, an_answer_needs_its_request, linearizable_has_one_order,
};
