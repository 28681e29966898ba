ghost use Rattle.std.specs.Prelude.{◌≡◌, Option, OnOk, OnErr, IsTrue};
ghost use Rattle.std.specs.Arc.{arc_value};
ghost use Rattle.std.specs.Ordering.{nat_cmp};
ghost use Rattle.std.specs.FinMap.{empty, is_sorted, from_entries, put};
ghost use Rattle.token.specs.Told.{AreDigestsOf};
ghost use Rattle.token.specs.ListedDigests.{without, with_digest};

use crate::long_reply::long_digest;
use base::{Entry, SortedMap};
use sessions::{LastReply, Sessions};
use std::alloc::{AllocError, Global};
use std::marker::Model;
use std::sync::Arc;

/// The digests of the long replies that are kept of clients: beside the sessions, so that a reply is
/// hashed once. Clones share them.
///
/// Contracts see the digest of each client that has one. That they are those of some sessions is the
/// contract of the calls (`AreDigestsOf`).
pub struct ReplyDigests {
    digests: Arc<SortedMap<u16, [u8; 32]>, Global>,
}

impl Drop for ReplyDigests {
    fn drop(self) {
        let ReplyDigests { digests: _ } = self;
    }
}

impl Model for ReplyDigests {
    ghost use Rattle.std.specs.Prelude.{List, ℕ, IsTrue};
    ghost use Rattle.std.specs.Arc.{arc_value};
    ghost use Rattle.std.specs.Coded.{coded_ℕ, coded_list};
    ghost use Rattle.std.specs.FinMap as map;
    ghost use Rattle.std.specs.Ordering.{nat_cmp};

    ghost Value = { map.FinMap nat_cmp (List ℕ) };

    ghost coded = { map.code coded_ℕ (coded_list coded_ℕ) };

    ghost view = { λ d. map.from_sorted (arc_value d.digests) };

    ghost invariant = { λ d. IsTrue (map.is_sorted nat_cmp (arc_value d.digests)) };
}

/// Puts the client's digest in place of an earlier one. If an allocation fails nothing changes.
fn put_digest(
    digests: &mut Arc<SortedMap<u16, [u8; 32]>, Global>,
    client: u16,
    digest: [u8; 32],
) -> Result<(), AllocError>
    ensures ok { OnOk result (arc_value digests.new ≡ put nat_cmp client digest (arc_value digests.old)) }
    ensures err { OnErr result (arc_value digests.new ≡ arc_value digests.old) }
{
    Arc::make_mut(digests)?.insert(client, digest)
}

/// Drops the client's digest. Digests without one stay shared. If an allocation fails nothing
/// changes.
fn drop_digest(
    digests: &mut Arc<SortedMap<u16, [u8; 32]>, Global>,
    client: u16,
) -> Result<(), AllocError>
    ensures ok { OnOk result (arc_value digests.new ≡ without client (arc_value digests.old)) }
    ensures err { OnErr result (arc_value digests.new ≡ arc_value digests.old) }
{
    if digests.get(&client).is_some() {
        Arc::make_mut(digests)?.remove(&client);
    }
    Ok(())
}

/// The client has this digest from now on, or none. If an allocation fails nothing changes.
fn set_digest(
    digests: &mut Arc<SortedMap<u16, [u8; 32]>, Global>,
    client: u16,
    digest: Option<[u8; 32]>,
) -> Result<(), AllocError>
    ensures ok { OnOk result (arc_value digests.new ≡ with_digest client digest (arc_value digests.old)) }
    ensures err { OnErr result (arc_value digests.new ≡ arc_value digests.old) }
{
    match digest {
        Some(digest) => put_digest(digests, client, digest),
        None => drop_digest(digests, client),
    }
}

/// Keeps the digests of all these sessions, of which `digests` has none yet.
fn keep_all(digests: &mut ReplyDigests, entries: &[Entry<u16, LastReply>]) -> Result<(), AllocError>
    requires none { AreDigestsOf empty digests.old }
    requires sorted { IsTrue (is_sorted nat_cmp entries.now) }
    ensures { OnOk result (AreDigestsOf (from_entries entries.now) digests.new) }
{
    for entry in entries {
        digests.keep(*entry.key(), entry.value())?;
    }
    Ok(())
}

impl ReplyDigests {
    ghost use Rattle.std.specs.Prelude.{◌≡◌, IfOk, OnOk, OnErr};
    ghost use Rattle.std.specs.FinMap as map;
    ghost use Rattle.std.specs.Option.{option_copied};
    ghost use Rattle.sessions.specs.Fresh.{Replies};
    ghost use Rattle.token.specs.Told.{AreDigestsOf};

    /// Digests of no client. The only error is a failed allocation.
    pub fn new(alloc: Global) -> Result<ReplyDigests, AllocError>
        ensures { IfOk result (λ digests. AreDigestsOf map.empty digests) }
    {
        Ok(ReplyDigests {
            digests: Arc::new(alloc, SortedMap::new(alloc))?,
        })
    }

    /// The digests of the long replies that these sessions keep: each of them is hashed. The only
    /// error is a failed allocation.
    pub fn of(alloc: Global, sessions: &Sessions) -> Result<ReplyDigests, AllocError>
        ensures { IfOk result (λ digests. AreDigestsOf sessions.now digests) }
    {
        let mut digests = ReplyDigests::new(alloc)?;
        keep_all(&mut digests, sessions.entries())?;
        Ok(digests)
    }

    /// To be called with what is then kept of the client: the digests of sessions become those of the
    /// sessions with it. A long reply is hashed; a short one is not, and the client's digest goes.
    /// If they are shared with a clone, a pointer to each digest is copied. If an allocation fails
    /// nothing changes.
    pub fn keep(&mut self, client: u16, kept: &LastReply) -> Result<(), AllocError>
        ensures ok { OnOk result ((m : Replies) → AreDigestsOf m self.old → AreDigestsOf (map.insert m client kept.now) self.new) }
        ensures err { OnErr result (self.new ≡ self.old) }
    {
        set_digest(&mut self.digests, client, long_digest(&kept.reply))
    }

    /// The digest of the client's reply, if it has one here.
    pub fn get(&self, client: u16) -> Option<&[u8; 32]>
        ensures { option_copied result ≡ map.get self.now client }
    {
        self.digests.get(&client)
    }
}

impl Clone for ReplyDigests {
    ghost is_clone = { λ digests copy. copy ≡ digests };

    /// The same digests, shared. It takes no memory, and fails only if there are too many clones to be
    /// counted.
    fn clone(&self) -> Result<ReplyDigests, AllocError> {
        Ok(ReplyDigests {
            digests: Arc::try_clone(&self.digests)?,
        })
    }
}
