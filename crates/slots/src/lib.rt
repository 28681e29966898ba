//! The slot of a replica: what becomes of it when it stops, is opened again, or is lost for good.
//!
//! It is built on `exec_node` and `verifier`, whose steps a slot makes, and on `keeper`, whose keepers in memory
//! outlive their replicas. The layers above, a world and the server that runs, use `settle`, `run`, `restart`,
//! `crash`, `lose` and `fail_next` of a slot, each of which is exactly the relation or the value of `specs/Slots.antt`
//! that it names, and the law `a_run_is_steps`: a job that is run at once leaves what some steps leave.
//!
//! Executors and verifiers have one type of slot, `NodeSlot`. `KeptNode` says what it needs of a replica.
#![tactic(auto)]

mod executor_slot;
mod kept_node;
mod node_slot;
mod running;
mod sending;
mod slot;
mod slots;
mod status;
mod verifier_slot;

pub use executor_slot::ExecutorSlot;
pub use running::a_run_is_steps;
pub use sending::send_ballots;
pub use slot::Slot;
pub use status::{Status, VerifierReport};
pub use verifier_slot::VerifierSlot;
