//! The wire between two members of a site, as values without a socket, a clock or a thread.
//!
//!     let mut sending = Sending::new(alloc, LaneBounds::QUICK);      // at the sender, for one lane to one peer
//!     sending.push(text)?;                                           // the text of a letter
//!     sending.connect(life_of_peer)?;                                // a connection was made
//!     while let Some((number, text)) = sending.hand_out()? {
//!         let bytes = to_bytes(alloc, number, &text)?;
//!         seal_in_pieces(alloc, &mut sealer, bytes.as_slice(), &mut sealed)?;
//!     }
//!     sending.acknowledge(number)?;                                  // this came back
//!
//!     let mut receiving = Receiving::new(highest_life);              // at the receiver
//!     receiving.connect(life_of_peer)?;
//!     let mut reader = MessageReader::new(alloc, LaneBounds::QUICK.most_letter_bytes);
//!     reader.feed(alloc, piece, &mut messages)?;                     // the bytes of a piece
//!     let letter = receiving.receive(message)?;                      // None: it came before
//!     let number = receiving.acknowledgement();                      // to be sent back, if it is due
//!
//! It is built on `seals`, whose pieces carry the bytes, and `letters`, whose texts it carries. A lane is one of two between
//! each sender and receiver, quick and bulk, with a connection of its own. Letters are numbered, and held until they are
//! acknowledged. What was not acknowledged is handed out again on the next connection.
//!
//! The layer above uses the law `letters_come_through`: the letters that are given are a beginning of those that were pushed,
//! over any number of connections, if what comes on each is a beginning of what was handed out there. A second one,
//! `messages_come_through`, says that this is so if the pieces that are taken are a beginning of those that were sealed. No
//! program uses it yet.
#![tactic(auto)]

mod bounds;
mod fault;
mod held_letters;
mod laws;
mod message;
mod message_fault;
mod message_reader;
mod pieces;
mod receiving;
mod sending;

pub use bounds::LaneBounds;
pub use fault::LinkFault;
pub use laws::{letters_come_through, messages_come_through};
pub use message::{HEADER_BYTES, HEARTBEAT, Message, NUMBER_BYTES, SIZE_BYTES, to_bytes};
pub use message_fault::MessageFault;
pub use message_reader::MessageReader;
pub use pieces::seal_in_pieces;
pub use receiving::Receiving;
pub use sending::Sending;
