//! The text protocol of memcached (protocol.txt): keys, commands, replies, and what a client's
//! stream of bytes asks, turn by turn.
//!
//! It is built on `base` (keys of maps, lists with limits, and `Fault`, which it gives on), `memchr`
//! (line ends) and `itoa` (decimals). The layer above uses `Reader::feed`: the turns given so far are
//! those that the bytes fed so far spell, however they were cut.
#![tactic(auto)]

mod block;
mod command;
mod held;
mod key;
mod laws;
mod line;
mod meaning;
mod number;
mod reader;
mod reply;
mod stage;
mod turn;
mod writing;

pub use base::Fault;
pub use block::{Block, MOST_BLOCK_BYTES};
pub use command::{Command, StoreVerb, Update};
pub use key::{Key, Keys, MOST_KEY_BYTES, MOST_KEYS, is_key_text};
pub use laws::{
    a_turn_has_its_own_bytes, longer_bytes_spell_more, one_list_is_spelled, pieces_add_up,
};
pub use line::{Header, Kind, Line, MOST_LINE_BYTES, Name};
pub use number::number_in;
pub use reader::Reader;
pub use reply::{Found, Reply, Values};
pub use turn::{Notice, Turn};
pub use writing::write_reply;
