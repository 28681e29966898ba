//! Proxies: each asks for many connections, one command at a time, as one client of the replicas.
//!
//! It is built on `client`, whose step a proxy makes with less to do: what it asks is a command that was parsed
//! already. The layer above uses `Proxy`, each of whose calls is its definition, and the laws: a proxy is in
//! a world what a client is that is fed the bytes of each command.
#![tactic(auto)]

mod laws;
mod proxy;

pub use laws::{an_answer_is_a_reply, an_ask_is_a_feed};
pub use proxy::Proxy;
