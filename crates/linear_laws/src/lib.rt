//! What shows one server is linearizable: laws, and their proofs.
//!
//! It is built on `one_server_laws`, whose run it takes apart into steps on items, and on `memcached_spec`, which says
//! what linearizable is. The layer above uses `reached_are_linearizable`.
#![tactic(auto)]

mod laws;

pub use laws::{
    asked_later_is_later, gets_of_several_keys_may_overlap, plays_are_linearizable,
    reached_are_linearizable, rounds_are_one_list,
};
