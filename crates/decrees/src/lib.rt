//! What the verifiers decide, the letters that they send for it, and what a list of decisions
//! stands for.
//!
//! It is built on `token`, `wire` (records), `proto` (`Fault`) and `indexmap` (votes, in the order of their arrival). The
//! layer above uses `Log::standing` and `Votes::verdict`: what stands is a function of the decrees,
//! and the verdict is a function of that and the votes.
#![tactic(auto)]

mod ballot;
mod decree;
mod heard;
mod laws;
mod log;
mod log_text;
mod node;
mod record;
mod standing;
mod start;
mod votes;

pub use ballot::Ballot;
pub use decree::Decree;
pub use laws::{a_log_grows_by_one, commit_is_backed};
pub use log::Log;
pub use node::{Letter, Node};
pub use standing::Standing;
pub use start::Start;
pub use votes::{Verdict, VoteKey, Votes};
