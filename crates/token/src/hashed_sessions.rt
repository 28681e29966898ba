ghost use Rattle.std.specs.Prelude.{◌≡◌, IfSome};
ghost use Rattle.std.specs.FinMap as map;
ghost use Rattle.sessions.specs.Fresh.{Replies};
ghost use Rattle.token.specs.Told.{AreDigestsOf};

use crate::form::Form;
use crate::reply_digests::ReplyDigests;
use crate::told::{told_digest, told_digest_of};
use proto::Reply;
use sessions::{LastReply, Request, Sessions};
use std::alloc::{AllocError, Global};
use std::marker::Model;

/// Sessions, and beside them the digests of the long replies that they keep, if these were made: so a
/// reply is hashed once and not with every batch. Clones share both.
///
/// Contracts see the sessions alone: whether there are digests makes no difference but to time.
pub struct HashedSessions {
    sessions: Sessions,
    digests: Option<ReplyDigests>,
}

impl Drop for HashedSessions {
    fn drop(self) {
        let HashedSessions {
            sessions: _,
            digests: _,
        } = self;
    }
}

impl Model for HashedSessions {
    ghost use Rattle.std.specs.Prelude.{IfSome};
    ghost use Rattle.std.specs.Coded.{coded_ℕ};
    ghost use Rattle.std.specs.FinMap as map;
    ghost use Rattle.std.specs.Ordering.{nat_cmp};
    ghost use Rattle.sessions.specs.declared.sessions.LastReply.{LastReply};
    ghost use Rattle.sessions.specs.contracts.sessions.LastReply as last;
    ghost use Rattle.token.specs.Told.{AreDigestsOf};

    ghost Value = { map.FinMap nat_cmp LastReply };

    ghost coded = { map.code coded_ℕ last.the_row.coded };

    ghost view = { λ h. h.sessions };

    ghost invariant = { λ h. IfSome h.digests (AreDigestsOf h.sessions) };
}

/// The digests with that of what is then kept of the client. None if there were none, or there is no
/// memory for this one.
fn with_kept(digests: Option<ReplyDigests>, client: u16, kept: &LastReply) -> Option<ReplyDigests>
    ensures { (m : Replies) → IfSome digests (AreDigestsOf m) → IfSome result (AreDigestsOf (map.insert m client kept.now)) }
{
    let mut digests = digests?;
    match digests.keep(client, kept) {
        Ok(()) => Some(digests),
        Err(_) => None,
    }
}

impl HashedSessions {
    ghost use Rattle.std.specs.Prelude.{◌≡◌, OnOk, OnErr};
    ghost use Rattle.std.specs.FinMap as map;
    ghost use Rattle.token.specs.Digest.{digest as digest_of};
    ghost use Rattle.token.specs.Told.{told_sessions_text};

    /// These sessions, without digests.
    pub fn new(sessions: Sessions) -> HashedSessions
        ensures { result ≡ sessions }
    {
        HashedSessions {
            sessions,
            digests: None,
        }
    }

    /// The sessions.
    pub fn sessions(&self) -> &Sessions
        ensures { result.now ≡ self.now }
    {
        &self.sessions
    }

    /// To be called before replies are kept for a state of this form: from then on the digests are there,
    /// if the form asks for them and there is memory for them. What is missing is hashed.
    pub fn prepare(&mut self, alloc: Global, form: Form)
        ensures { self.new ≡ self.old }
    {
        match form {
            Form::Old | Form::Current => self.digests = None,
            Form::Tree => {
                if self.digests.is_none() {
                    self.digests = ReplyDigests::of(alloc, &self.sessions).ok();
                }
            }
        }
    }

    /// Keeps the reply of a request that ran, as `Sessions::keep`. A long one is hashed if the digests
    /// are there. If an allocation fails no session changes.
    pub fn keep(&mut self, request: &Request, reply: Reply) -> Result<(), AllocError>
        ensures ok { OnOk result (self.new
            ≡ map.insert self.old request.now.client (record { number = request.now.number; reply = reply })) }
        ensures err { OnErr result (self.new ≡ self.old) }
    {
        let kept = LastReply {
            number: request.number,
            reply,
        };
        let digests = with_kept(self.digests.take(), request.client, &kept);
        self.sessions.keep(request, kept.reply)?;
        self.digests = digests;
        Ok(())
    }

    /// The digest of the told text: no long reply is hashed whose digest is there. It takes no memory.
    pub fn told_digest(&self) -> [u8; 32]
        ensures { result ≡ digest_of (told_sessions_text self.now) }
    {
        match &self.digests {
            Some(digests) => told_digest(&self.sessions, digests),
            None => told_digest_of(&self.sessions),
        }
    }
}

impl Clone for HashedSessions {
    ghost is_clone = { λ sessions copy. copy ≡ sessions };

    /// The same sessions, shared with their digests. It takes no memory, and fails only if there are too
    /// many clones to be counted.
    fn clone(&self) -> Result<HashedSessions, AllocError> {
        let digests = match &self.digests {
            Some(digests) => Some(digests.clone()?),
            None => None,
        };
        Ok(HashedSessions {
            sessions: self.sessions.clone()?,
            digests,
        })
    }
}
