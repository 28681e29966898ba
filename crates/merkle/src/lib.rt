//! A map as a Merkle tree over the paths of its keys: its digest is a function of the map alone, and a
//! write hashes one path anew.
//!
//! It is built on `base`, whose entries it shares, and on `sha2`; `proto`, `items` and `wire` have the keys
//! and items that it can hold. The layer above uses `MerkleMap`: clones share all, an error leaves all
//! unchanged, `drop_due` visits just what it drops, `differences` visits just what is above digests that
//! differ, and `digests_tell_maps` says that equal digests are of equal maps, if digests tell the texts
//! apart that were hashed.
#![tactic(auto)]

mod differing;
mod dropping;
mod due;
mod finding;
mod fork;
mod hashing;
mod item_leaf;
mod key;
mod key_path;
mod laws;
mod merkle_map;
mod putting;
mod removing;
mod sharing;
mod walking;

pub use key::{TreeKey, TreeValue};
pub use laws::digests_tell_maps;
pub use merkle_map::MerkleMap;
pub use walking::Visitor;
