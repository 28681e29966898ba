//! A state that is handed over by the pages that differ.
//!
//! A node that is behind tells what it has: a `Need`, the digest of each of its pages. Another
//! answers with a `Parcel`: the fields of its own state, its sessions, and just the pages whose
//! digests are not those. The first joins these with its own pages, and takes what they make only
//! if its token is the one that was decided.
//!
//! A parcel shares its pages as they are, in the layout of the state's form, with the digests that they
//! keep. The invariant of `Page` says that a digest it keeps is that of its items, and a record holds no
//! digests. So the token is that of what came, and no sender is believed. Between two states of form 2,
//! or two of form 3, neither side does work per item.
//!
//! It is built on `states` and `executor`, whose states it hands over, on `pages`, and on `wire` for
//! the records. The layer above uses `Need::of_state`, `answer` and `take`: each is its definition,
//! and `a_state_is_handed_over` is the law of the three together.
#![tactic(auto)]

mod answering;
mod laws;
mod need;
mod numbered_page;
mod parcel;
mod taking;

pub use answering::answer;
pub use laws::a_state_is_handed_over;
pub use need::{Digests, Need};
pub use parcel::Parcel;
pub use taking::take;
