ghost use Rattle.std.specs.Prelude.{◌≡◌};
ghost use Rattle.wire.specs.Item.{page_text, PageFits};
ghost use Rattle.wire.specs.Batch.{batch_text};
ghost use Rattle.wire.specs.Session.{sessions_text, SessionsFit};
ghost use Rattle.token.specs.Digest.{digest as digest_of};

use base::Entry;
use batches::Batch;
use items::Item;
use proto::Key;
use sessions::Sessions;
use sha2::{Digest, Sha256};
use wire::{digest, put_page};

/// The digest of a page that has these entries: SHA-256 (FIPS 180-4) of the page's text, 32 bytes.
/// It takes no memory.
#[tactic(auto, unfolding(crate::specs::Digest::digest))]
pub fn page_digest(entries: &[Entry<Key, Item>]) -> [u8; 32]
    requires { PageFits entries.now }
    ensures { result ≡ digest_of (page_text entries.now) }
{
    let mut hasher = Sha256::new();
    match put_page(entries, &mut hasher) {
        Ok(()) => hasher.finalize(),
        Err(never) => match never {},
    }
}

/// The digest of a batch: SHA-256 (FIPS 180-4) of its text, 32 bytes. It takes no memory.
#[tactic(auto, unfolding(crate::specs::Digest::digest))]
pub fn batch_digest(batch: &Batch) -> [u8; 32]
    ensures { result ≡ digest_of (batch_text batch.now) }
{
    digest(batch)
}

/// The digest of what is kept of all clients, which always has a text: SHA-256 (FIPS 180-4) of that
/// text, 32 bytes. It takes no memory.
#[tactic(auto, unfolding(crate::specs::Digest::digest))]
pub fn sessions_digest(sessions: &Sessions) -> [u8; 32]
    ensures digest { result ≡ digest_of (sessions_text sessions.now) }
    ensures fit { SessionsFit sessions.now }
{
    let _entries = sessions.entries();
    digest(sessions)
}
