//! The hosts of a server's executors: each has an executor, and the letters that wait in it.
//!
//! It is built on `slots`, one of which it holds: what a host does of its executor is what becomes of a slot in
//! a world. The layer above uses `ExecutorHost`. Each of its calls gives the executor one input at most, or
//! runs its job, and says which; the letters that the executor sends are returned.
#![tactic(auto)]

mod executor_host;
mod held;
mod looking;
mod orders;

pub use executor_host::ExecutorHost;
pub use held::MOST_HELD;
