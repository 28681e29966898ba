//! Tokens: the digests by which states are known, and the digests that they are made from.
//!
//! It is built on `wire`, whose texts it digests, on `base` (entries, texts) and on `sha2`, which is
//! SHA-256 by FIPS 180-4. The layers above use `Token::new` and the digests beside it: each is the
//! word `digest` of the text of its arguments. They keep a digest beside its text as `Digested`, and
//! the digests of long replies beside the sessions as `ReplyDigests`: nothing else here takes memory.
//! No layer above computes with SHA-256.
#![tactic(auto)]

mod digested;
mod digests;
mod form;
mod hashed_sessions;
mod laws;
mod long_reply;
mod merged;
mod record;
mod reply_digests;
mod told;
mod tree;

pub use digested::Digested;
pub use digests::{batch_digest, page_digest, sessions_digest};
pub use form::{Form, OLD_BLOCK_BYTES};
pub use hashed_sessions::HashedSessions;
pub use laws::{told_texts_are_told_apart, told_texts_tell_sessions};
pub use long_reply::MOST_SHORT_BYTES;
pub use merged::merged_digest;
pub use reply_digests::ReplyDigests;
pub use told::{told_digest, told_digest_of};
pub use tree::{HEIGHT, OLD_HEIGHT, OLD_PAGES, PAGES, inner_digest, root};
use wire::{TokenText, digest};

/// The digest by which a state is known: SHA-256 (FIPS 180-4) of a token's text, 32 bytes.
#[derive(Clone, Copy, Debug, PartialEq, Eq, Hash)]
pub struct Token(pub [u8; 32]);

impl Token {
    ghost use Rattle.std.specs.Prelude.{◌≡◌};
    ghost use Rattle.wire.specs.Token.{token_text};
    ghost use Rattle.token.specs.Digest.{digest as digest_of};

    /// The token of the state that has this number, epoch and moment: of the token of the state
    /// before it, and of the digests of the batch that led to it, of its pages (their root) and of
    /// its sessions. The moment is in seconds. It takes no memory.
    #[tactic(auto, unfolding(crate::specs::Digest::digest))]
    pub fn new(
        previous: &Token,
        n: u64,
        epoch: u64,
        moment: u32,
        batch: &[u8; 32],
        root: &[u8; 32],
        sessions: &[u8; 32],
    ) -> Token
        ensures { result.0 ≡ digest_of (token_text (record {
          previous = previous.now.0;
          n = n;
          epoch = epoch;
          moment = moment;
          batch = batch.now;
          root = root.now;
          sessions = sessions.now;
        })) }
    {
        Token(digest(&TokenText {
            previous: previous.0,
            n,
            epoch,
            moment,
            batch: *batch,
            root: *root,
            sessions: *sessions,
        }))
    }
}
