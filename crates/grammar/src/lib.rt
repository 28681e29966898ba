//! The two grammars in which a connection's bytes may be read: the profile of `proto`, and memcached's dialect.
//!
//! It is built on `proto` and `dialect`, the readers of both, and on `memcached_spec`, which says for the profile what
//! `specs/Asks.antt` and `specs/Orders.antt` say for either. The layer above uses `Reader::feed`: the turns given so
//! far are those that the bytes fed so far spell. To read: `SpellsIn`.
#![tactic(auto)]

mod conditions;
mod laws;
mod limit;
mod reader;
mod stats;
mod turn;

pub use conditions::Conditions;
pub use dialect::{Show, write_shown};
pub use laws::{
    a_full_server_stores_nothing, a_limit_that_is_not_reached_changes_nothing,
    each_command_has_a_text, longer_bytes_ask_more, one_reading, profile_is_as_before,
};
pub use reader::{Dialect, Reader};
pub use stats::StatsText;
pub use turn::{Notice, Turn, leaves_out};
