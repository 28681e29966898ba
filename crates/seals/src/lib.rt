//! Pieces of bytes between two ends that share a key. What is taken at one end is what was sent at the other, in order.
//!
//!     let keys = keys_of(site_key, hello_of_initiator, hello_of_responder);
//!
//!     let mut sealer = Sealer::new(keys.initiator_key);        // at one end
//!     let bytes = sealer.seal(alloc, piece)?;
//!
//!     let mut opener = Opener::new(alloc, keys.initiator_key); // at the other
//!     opener.feed(alloc, bytes, &mut pieces)?;                 // the bytes, in any parts
//!
//! It is built on `mac`, and has no sockets. A piece has at most 65,536 bytes. It is sent with its length and a tag of 16
//! bytes, under its number, which both ends count and nobody sends. Bytes that are changed, left out, moved or sent twice
//! have another tag: `feed` refuses them, and all that comes behind them. Nothing is secret: who reads the bytes reads
//! the pieces.
//!
//! The layer above uses the contract of `feed`: what was taken is what `HasOpened` says of all bytes that came, however
//! they were cut. A law: if no tag is forged, that is a beginning of what was sealed. No program uses it yet.
#![tactic(auto)]

mod fault;
mod frame;
mod keys;
mod laws;
mod opener;
mod sealer;
mod tags;

pub use fault::SealFault;
pub use frame::{LENGTH_BYTES, MOST_PIECE_BYTES, TAG_BYTES, TakenPiece};
pub use keys::{SessionKeys, keys_of};
pub use laws::{texts_tell_what_is_tagged, what_is_taken_was_sent};
pub use opener::Opener;
pub use sealer::Sealer;
pub use tags::are_same;
