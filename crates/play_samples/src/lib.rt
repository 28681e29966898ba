//! Small plays that the prover computes: which decrees are chosen by letters, and what is served of them. It
//! is built on `agreement_laws`, `run_laws` and `one_server_laws`, whose definitions it computes, and no crate is built on
//! it. Tokens are 32 equal bytes: that one round follows from another is no part of it.
#![tactic(auto)]

mod rows;

pub use rows::{accepted_is_chosen_later, two_batches_are_served, undone_is_made_again};
