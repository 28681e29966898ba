//! Records: the one encoding of a value as bytes, and its reading.
//!
//! It is built on `base`, `proto`, `items`, `sessions` and `batches`, whose values it encodes, and on
//! `sha2`. The layers above use `read`: it answers a value exactly if all of the bytes are the
//! encoding of one that fits, and `write` and `digest`, which encode by the same `Record::put`. What is
//! put into a `base::Text` shares the data of large items with them.
#![tactic(auto)]

mod batch;
mod block;
mod command;
mod counted;
mod counter;
mod entry;
mod fixed;
mod front;
mod item;
mod key;
mod laws;
mod numbers;
mod option;
mod page;
mod pair;
mod record;
mod reply;
mod request;
mod session;
mod sink;
mod text;
mod token;
mod update;

pub use block::LEAST_SHARED_BYTES;
pub use counted::{Counted, put_count, put_list, take_values};
pub use counter::Counter;
pub use front::{take_bytes, take_first, take_mark};
pub use laws::{
    batches_are_told_apart, commands_are_told_apart, inner_nodes_are_told_apart,
    items_are_told_apart, pages_are_told_apart, replies_are_told_apart, requests_are_told_apart,
    sessions_are_told_apart, tokens_are_told_apart,
};
pub use page::{Entries, put_page};
pub use record::{Record, digest, read, write};
pub use sink::Sink;
pub use text::share_text;
pub use token::{InnerText, TokenText};
