ghost use Rattle.std.specs.Prelude.{◌≡◌, [], IfNone, IfSome, IfOk, None, Some, OnOk};
ghost use Rattle.std.specs.Arc.{arc_value};
ghost use Rattle.wire.specs.Item.{page_text, PageFits};
ghost use Rattle.wire.specs.Session.{sessions_text, SessionsFit};
ghost use Rattle.wire.specs.Record.{Puts};
ghost use Rattle.token.specs.Digest.{digest as digest_of};
ghost use Rattle.token.specs.Digested.{IsDigested, AreDigested};
ghost use Rattle.token.specs.Told.{told_sessions_text};

use crate::digests::{page_digest, sessions_digest};
use crate::form::Form;
use crate::hashed_sessions::HashedSessions;
use base::{Entry, Text};
use items::Item;
use proto::Key;
use sessions::Sessions;
use sha2::{Digest, Sha256};
use std::alloc::{AllocError, Global};
use std::marker::Model;
use std::sync::Arc;
use wire::{Record, Sink, put_page, share_text};

/// The digest of a text, SHA-256 by FIPS 180-4, and the text itself if there was memory to keep
/// it. The text shares the data of large items with them, and clones share the text.
///
/// Contracts see it as the digest and the text. That these belong together is said in the contract
/// of the call that made it (`IsDigested`).
pub struct Digested {
    digest: [u8; 32],
    /// All of it in pieces: its tail is sealed.
    text: Option<Arc<Text, Global>>,
}

impl Drop for Digested {
    fn drop(self) {
        let Digested { digest: _, text: _ } = self;
    }
}

impl Model for Digested {
    ghost use Rattle.std.specs.Arc.{arc_value};
    ghost use Rattle.std.specs.Option.{option_map};
    ghost use Rattle.token.specs.Digested.{DigestedView};

    ghost Value = { DigestedView };

    ghost view = { λ d. (d.digest, option_map arc_value d.text) };
}

/// The digest of the text, piece by piece.
#[tactic(auto, unfolding(crate::specs::Digest::digest))]
fn text_digest(text: &Text) -> [u8; 32]
    ensures { result ≡ digest_of text.now }
{
    let mut hasher = Sha256::new();
    match share_text(text, &mut hasher) {
        Ok(()) => hasher.finalize(),
        Err(never) => match never {},
    }
}

/// The text, sealed, so that whoever it is shared with copies none of it.
fn kept(alloc: Global, mut text: Text) -> Result<Arc<Text, Global>, AllocError>
    ensures { IfOk result (λ kept. arc_value kept ≡ text) }
{
    text.seal()?;
    Ok(Arc::new(alloc, text)?)
}

/// Room for an entry of some 30 bytes of data: longer ones make the text grow as it is written.
const ROOM_FOR_AN_ENTRY: usize = 64;

/// No bytes yet, with room for so many entries if there is memory for it.
fn text_for(alloc: Global, entries: usize) -> Text
    ensures { result ≡ [] }
{
    let mut text = Text::new(alloc);
    let _ = text.reserve(entries.saturating_mul(ROOM_FOR_AN_ENTRY));
    text
}

impl Digested {
    /// The text, which is kept if there is memory to share it, and its digest.
    fn of_text(alloc: Global, text: Text) -> Digested
        ensures { IsDigested text result }
    {
        let digest = text_digest(&text);
        match kept(alloc, text) {
            Ok(text) => Digested {
                digest,
                text: Some(text),
            },
            Err(_) => Digested { digest, text: None },
        }
    }

    /// The digest of the text of a page that has these entries. The text is written once, and kept;
    /// the data of large items is shared with them.
    /// If there is no memory for it the digest is made without it; there is no error.
    pub fn of_page(alloc: Global, entries: &[Entry<Key, Item>]) -> Digested
        requires { PageFits entries.now }
        ensures { IsDigested (page_text entries.now) result }
    {
        let mut text = text_for(alloc, entries.len());
        match put_page(entries, &mut text) {
            Ok(()) => Digested::of_text(alloc, text),
            Err(_) => Digested {
                digest: page_digest(entries),
                text: None,
            },
        }
    }

    /// The digest of what is kept of all clients, in a state of this form. If it is that of the text,
    /// the text is written once, and kept; the data of large values is shared with their replies.
    /// If there is no memory for it the digest is made without it; there is no error.
    pub fn of_sessions(alloc: Global, form: Form, sessions: &HashedSessions) -> Digested
        ensures digested { AreDigested form sessions.now result }
        ensures fit { SessionsFit sessions.now }
    {
        let _entries = sessions.sessions().entries();
        match form {
            Form::Old | Form::Current => Digested::of_whole(alloc, sessions.sessions()),
            Form::Tree => Digested::of_told(sessions),
        }
    }

    /// The digest of the text of what is kept of all clients.
    fn of_whole(alloc: Global, sessions: &Sessions) -> Digested
        ensures { IsDigested (sessions_text sessions.now) result }
    {
        let mut text = text_for(alloc, sessions.entries().len());
        match sessions.put(&mut text) {
            Ok(()) => Digested::of_text(alloc, text),
            Err(_) => Digested {
                digest: sessions_digest(sessions),
                text: None,
            },
        }
    }

    /// The digest of the told text of what is kept of all clients.
    fn of_told(sessions: &HashedSessions) -> Digested
        ensures digest { result.0 ≡ digest_of (told_sessions_text sessions.now) }
        ensures kept { result.1 ≡ None }
    {
        Digested {
            digest: sessions.told_digest(),
            text: None,
        }
    }

    /// The digest: 32 bytes.
    pub fn digest(&self) -> &[u8; 32]
        ensures { result.now ≡ self.now.0 }
    {
        &self.digest
    }

    /// The text, if it is kept. All of it is in pieces.
    pub fn text(&self) -> Option<&Text>
        ensures some { IfSome result (λ text. self.now.1 ≡ Some text.now) }
        ensures none { IfNone result (self.now.1 ≡ None) }
    {
        match &self.text {
            Some(text) => Some(&**text),
            None => None,
        }
    }

    /// Writes the text of the sessions that it is of: the pieces that are kept, shared, or else the
    /// sessions one by one.
    pub fn put_sessions<S: Sink>(&self, sessions: &Sessions, sink: &mut S) -> Result<(), S::Refusal>
        requires { IfSome self.now.1 (λ bytes. bytes ≡ sessions_text sessions.now) }
        ensures { OnOk result (Puts S.holds (sessions_text sessions.now) sink.old sink.new) }
    {
        match &self.text {
            Some(text) => share_text(text, sink),
            None => {
                let _entries = sessions.entries();
                sessions.put(sink)
            }
        }
    }
}

impl Clone for Digested {
    ghost is_clone = { λ digested copy. copy ≡ digested };

    /// The same digest, and the same text, shared. It takes no memory, and fails only if a text
    /// has too many clones to be counted.
    fn clone(&self) -> Result<Digested, AllocError> {
        let text = match &self.text {
            Some(text) => Some(Arc::try_clone(text)?),
            None => None,
        };
        Ok(Digested {
            digest: self.digest,
            text,
        })
    }
}
