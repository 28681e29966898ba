//! All nodes in one world, stepped by events: whatever happens, and in whatever order.
//!
//! It is built on `slots`, in which its replicas are, on `worlds`, whose relation `WorldNext` each of its steps is,
//! and on `world_laws`, which hold of each world that is reached. The layer above uses `play`: the world that it
//! gives is reached by just these events, so at a log index at most one decree is chosen, a chosen one is
//! backed, and if at most `u` verifiers are lost for good, another one's record holds each. `history` plays
//! the same events and gives what clients were given after each of them, which is linearizable.
#![tactic(auto)]

mod changing;
mod client_slot;
mod coming;
mod copies;
mod giving;
mod histories;
mod opening;
mod plays;
mod sending;
mod stepping;
mod waiting;
mod world;

pub use crate::world::World;
pub use client_slot::ClientSlot;
pub use histories::history;
pub use plays::play;
