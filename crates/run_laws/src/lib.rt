//! Laws of states that are known by their tokens, and of the one run that chosen decrees make.
//!
//! It is built on `executor`, whose rounds a run is made of. The layer above calls a law, which is the
//! contract of a function that does nothing, or uses the lemma behind it in `proofs/Tokens.antt`,
//! `proofs/Runs.antt` or `proofs/Replies.antt`: there the states that were met and the rounds that were
//! executed are any that a property tells, and need be no lists.
#![tactic(auto)]

mod laws;

pub use laws::{
    committed_state_is_of_the_run, decrees_have_one_run, kept_reply_was_given,
    more_decrees_extend_the_run, request_is_answered_once, run_ends_where_decrees_stand,
    token_tells_the_state,
};
