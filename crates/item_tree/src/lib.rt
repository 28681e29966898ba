//! Items as a Merkle tree: the store of a page whose digest costs what a batch wrote.
//!
//! It is built on `merkle`, whose map it holds, and on `items`, whose `Store` it is. The layer above uses
//! `ItemTree` as it uses `PlainStore`: each call is one equation on the map from keys to items, and its
//! digest is a function of that map. Its record is its entries in the order of their keys' paths; what has
//! another order is refused.
#![tactic(auto)]

mod converting;
mod laws;
mod record;
mod same;
mod store;

pub use laws::digests_tell_items;
pub use same::are_same;
pub use store::ItemTree;
