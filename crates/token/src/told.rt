//! The short text of what is kept of all clients, in which a long reply is its digest.

ghost use Rattle.std.specs.Prelude.{◌≡◌, Option, OnOk, IfSome, All, flat_map};
ghost use Rattle.std.specs.FinMap as map;
ghost use Rattle.wire.specs.Record.{Puts};
ghost use Rattle.token.specs.Digest.{digest as digest_of};
ghost use Rattle.token.specs.Told.{AreDigestsOf, told_reply, told_session, told_sessions_text, long_digest as digest_of_long};

use crate::long_reply::long_digest;
use crate::reply_digests::ReplyDigests;
use base::Entry;
use proto::Reply;
use sessions::{LastReply, Sessions};
use sha2::{Digest, Sha256};
use wire::{Record, Sink, put_count};

/// The digest of a client's reply, if it is long: the one at hand, or else it is hashed.
fn digest_for(digests: Option<&ReplyDigests>, client: u16, reply: &Reply) -> Option<[u8; 32]>
    requires { IfSome digests (λ d. map.get d.now client ≡ digest_of_long reply.now) }
    ensures { result ≡ digest_of_long reply.now }
{
    match digests {
        Some(digests) => digests.get(client).copied(),
        None => long_digest(reply),
    }
}

/// Writes what the reply is known by: the digest, if it is long.
#[tactic(auto, unfolding(crate::specs::Told::told_reply))]
fn put_reply<S: Sink>(
    reply: &Reply,
    digest: Option<[u8; 32]>,
    sink: &mut S,
) -> Result<(), S::Refusal>
    requires { digest ≡ digest_of_long reply.now }
    ensures { OnOk result (Puts S.holds (told_reply reply.now) sink.old sink.new) }
{
    match digest {
        Some(digest) => {
            sink.put(&[1u8])?;
            digest.put(sink)
        }
        None => {
            sink.put(&[0u8])?;
            reply.put(sink)
        }
    }
}

/// Writes the client, the number of its request, and what the reply is known by.
#[tactic(auto, unfolding(crate::specs::Told::told_session))]
fn put_session<S: Sink>(
    session: &Entry<u16, LastReply>,
    digest: Option<[u8; 32]>,
    sink: &mut S,
) -> Result<(), S::Refusal>
    requires { digest ≡ digest_of_long session.now.1.reply }
    ensures { OnOk result (Puts S.holds (told_session session.now) sink.old sink.new) }
{
    session.key().put(sink)?;
    session.value().number.put(sink)?;
    put_reply(&session.value().reply, digest, sink)
}

/// Writes each session.
fn put_each<S: Sink>(
    sessions: &[Entry<u16, LastReply>],
    digests: Option<&ReplyDigests>,
    sink: &mut S,
) -> Result<(), S::Refusal>
    requires { IfSome digests (λ d. All (λ s. map.get d.now s.0 ≡ digest_of_long s.1.reply) sessions.now) }
    ensures { OnOk result (Puts S.holds (flat_map told_session sessions.now) sink.old sink.new) }
{
    for session in sessions {
        let digest = digest_for(digests, *session.key(), &session.value().reply);
        put_session(session, digest, sink)?;
    }
    Ok(())
}

/// Writes the told text of the sessions.
fn put_told<S: Sink>(
    sessions: &Sessions,
    digests: Option<&ReplyDigests>,
    sink: &mut S,
) -> Result<(), S::Refusal>
    requires { IfSome digests (λ d. AreDigestsOf sessions.now d.now) }
    ensures { OnOk result (Puts S.holds (told_sessions_text sessions.now) sink.old sink.new) }
{
    let entries = sessions.entries();
    sink.put(&[7u8])?;
    put_count(entries.len(), sink)?;
    put_each(entries, digests, sink)
}

/// The digest of the told text. What is not at hand is hashed.
#[tactic(auto, unfolding(crate::specs::Digest::digest))]
fn digest_with(sessions: &Sessions, digests: Option<&ReplyDigests>) -> [u8; 32]
    requires { IfSome digests (λ d. AreDigestsOf sessions.now d.now) }
    ensures { result ≡ digest_of (told_sessions_text sessions.now) }
{
    let mut hasher = Sha256::new();
    match put_told(sessions, digests, &mut hasher) {
        Ok(()) => hasher.finalize(),
        Err(never) => match never {},
    }
}

/// The digest of what is kept of all clients, with the digests of the long replies at hand: SHA-256
/// (FIPS 180-4) of the told text, 32 bytes. It takes no memory, and hashes no long reply.
pub fn told_digest(sessions: &Sessions, digests: &ReplyDigests) -> [u8; 32]
    requires { AreDigestsOf sessions.now digests.now }
    ensures { result ≡ digest_of (told_sessions_text sessions.now) }
{
    digest_with(sessions, Some(digests))
}

/// The same digest with nothing at hand: each long reply is hashed. It takes no memory.
pub fn told_digest_of(sessions: &Sessions) -> [u8; 32]
    ensures { result ≡ digest_of (told_sessions_text sessions.now) }
{
    digest_with(sessions, None)
}
