//! Replies whose texts are long, and their digests.

ghost use Rattle.std.specs.Prelude.{◌≡◌};
ghost use Rattle.token.specs.Told.{is_long as is_long_reply, long_digest as digest_of_long};

use proto::Reply;
use wire::{Counter, Record, digest};

/// The text of a short reply has at most so many bytes. A longer reply is known by its digest.
pub const MOST_SHORT_BYTES: usize = 64;

/// Whether the text of the reply is longer than a short one may be. It takes no memory.
fn is_long(reply: &Reply) -> bool
    ensures { result ≡ is_long_reply reply.now }
{
    let mut counter = Counter::new();
    match reply.put(&mut counter) {
        Ok(()) => MOST_SHORT_BYTES < counter.count(),
        Err(never) => match never {},
    }
}

/// The digest of a long reply: SHA-256 (FIPS 180-4) of its text, 32 bytes. `None` if the reply is
/// short, which is not hashed. It takes no memory.
#[tactic(auto, unfolding(crate::specs::Digest::digest))]
pub fn long_digest(reply: &Reply) -> Option<[u8; 32]>
    ensures { result ≡ digest_of_long reply.now }
{
    if is_long(reply) {
        Some(digest(reply))
    } else {
        None
    }
}
