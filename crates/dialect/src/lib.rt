//! memcached's dialect of the text protocol: what a client's stream of bytes asks of the profile of `proto`, as
//! memcached 1.6.18 reads it.
//!
//! It is built on `proto` (keys, commands, blocks, replies), `base` (lists with limits), `memchr` (line ends) and `itoa`
//! (decimals). The layer above uses `Reader::feed`: the turns given so far are those that the bytes fed so far spell,
//! however they were cut; and `write_shown`, the bytes of a reply as its turn shows it.
//!
//! `stats` has an answer without a text, which the layer above makes. `me` is answered by `ERROR`.
#![tactic(auto)]

mod laws;
mod line;
mod meaning;
mod meta;
mod meta_flags;
mod meta_line;
mod meta_text;
mod name;
mod number;
mod part;
mod reader;
mod reading;
mod stage;
mod stats;
mod turn;
mod writing;

pub use laws::{
    a_get_of_many_keys_is_one_get, a_line_of_the_profile_asks_the_same,
    a_noreply_line_gives_no_bytes, a_quiet_meta_line_hides_what_is_expected,
    a_refused_line_asks_nothing, longer_bytes_spell_more, one_list_is_spelled,
};
pub use line::{MOST_LINE_BYTES, MOST_SIZE};
pub use meta::{Field, Fields, MetaShow, Word};
pub use reader::Reader;
pub use stats::Report;
pub use turn::{Notice, Show, Turn};
pub use writing::write_shown;
