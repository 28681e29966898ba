//! Laws of agreement: what holds whatever the network does, and whichever verifiers stop when.
//!
//! It is built on `verifier`, whose step functions the machine of `specs/Machine.antt` is made of. The
//! layer above uses the lemmas of `proofs/Machine.antt`, or calls a law: each is the contract of a
//! function that does nothing.
#![tactic(auto)]

mod laws;

pub use laws::{
    at_most_one_is_chosen, chosen_is_backed, chosen_is_held, chosen_is_kept, handled_is_done,
    list_is_backed, list_is_what_is_chosen, list_only_grows, logs_begin_the_list, opened_is_done,
    records_are_read_back, refused_is_stopped, refused_open_is_stopped, reopened_is_done,
    something_is_chosen, told_is_chosen, told_stands_is_chosen,
};
