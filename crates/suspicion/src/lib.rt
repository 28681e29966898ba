//! When a member of a site suspects the leader.
//!
//! It is built on std alone, and has no clock: each tick, a tenth of a second, a member tells its `Suspicion` what it
//! observes, and is told whether its verifier is to suspect the leader now.
//!
//! The layer above uses `Suspicion::tick`. Its contract says when it is `true`: never while fewer than `u` other members
//! are heard, never while nothing waits here, and not before the leader's member was away, or no decree came, for a time
//! that grows with the rank of the member. `two_are_a_second_apart` is a law of any run: with no decree between them, two
//! suspicions of one member are more than a second apart.
//!
//! Safety does not rest on it: a verifier may suspect the leader at any moment. No program uses it yet.
#![tactic(auto)]

mod laws;
mod observed;
mod suspicion;

pub use laws::two_are_a_second_apart;
pub use observed::Observed;
pub use suspicion::{AWAY_TURN, LEAST_PATIENCE, MOST_PATIENCE, STALLED_TURN, Suspicion};
