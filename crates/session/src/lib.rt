//! A session: a client's bytes in, one outstanding command out; its reply in, bytes out. It knows of no request,
//! no replica and no socket.
//!
//! It is built on `grammar` (what bytes ask in the profile or in memcached's dialect, and what it is to be answered in
//! order), `dialect` (what is shown of replies) and `proto`. The layer above uses `Session::feed`, `answer` and `take`:
//! each is exact on what the session has after it and on the bytes that are given. `SessionOk` in `specs/Taken.antt` is
//! what they keep: the client was given the texts of the first turns that its bytes spell, in order.
#![tactic(auto)]

mod session;
mod turns;

pub use session::{Awaited, Ready, Session};
pub use turns::Turns;
