ghost use Rattle.std.specs.Prelude.{◌≡◌};

use crate::entries::{are_few, put_entry};
use crate::request::Request;
use base::{Entry, SortedMap};
use proto::Reply;
use std::alloc::{AllocError, Global};
use std::marker::Model;
use std::sync::Arc;

/// How many clients there are at most: as many as there are numbers of clients.
pub const MOST_CLIENTS: usize = 65536;

/// The number of a client's last request that ran, and its reply.
#[derive(Drop)]
pub struct LastReply {
    pub number: u64,
    pub reply: Reply,
}

impl Clone for LastReply {
    ghost is_clone = { λ kept copy. copy ≡ kept };

    fn clone(&self) -> Result<LastReply, AllocError> {
        Ok(LastReply {
            number: self.number,
            reply: self.reply.clone()?,
        })
    }
}

/// The last reply of each client. Clones share what is kept.
pub struct Sessions {
    entries: Arc<SortedMap<u16, LastReply>, Global>,
}

impl Drop for Sessions {
    fn drop(self) {
        let Sessions { entries: _ } = self;
    }
}

impl Model for Sessions {
    ghost use Rattle.std.specs.Prelude.{IsTrue, All};
    ghost use Rattle.std.specs.Arc.{arc_value};
    ghost use Rattle.std.specs.Coded.{coded_ℕ};
    ghost use Rattle.std.specs.FinMap as map;
    ghost use Rattle.std.specs.Ordering.{nat_cmp};
    ghost use Rattle.sessions.specs.declared.sessions.LastReply.{LastReply};
    ghost use Rattle.sessions.specs.Limits.{SessionFits};
    ghost use Rattle.sessions.specs.contracts.sessions.LastReply as last;

    ghost Value = { map.FinMap nat_cmp LastReply };

    ghost coded = { map.code coded_ℕ last.the_row.coded };

    ghost view = { λ a. map.from_sorted (arc_value a.entries) };

    ghost invariant = { λ a. IsTrue (map.is_sorted nat_cmp (arc_value a.entries)) × All SessionFits (arc_value a.entries) };
}

impl Sessions {
    ghost use Rattle.std.specs.Prelude.{◌≡◌, ◌≤◌, IsTrue, IfOk, OnOk, OnErr, MatchOption, option_copied, length, All};
    ghost use Rattle.std.specs.Ordering.{nat_cmp};
    ghost use Rattle.std.specs.FinMap as map;
    ghost use Rattle.sessions.specs.Fresh.{is_next};
    ghost use Rattle.sessions.specs.Limits.{SessionFits};

    /// Sessions of no client. The only error is a failed allocation.
    pub fn new(alloc: Global) -> Result<Sessions, AllocError>
        ensures { IfOk result (λ sessions. sessions ≡ map.empty) }
    {
        Ok(Sessions {
            entries: Arc::new(alloc, SortedMap::new(alloc))?,
        })
    }

    /// Sessions of these clients, which rise strictly: what `entries` gave, put together again.
    /// Clients and the numbers of their requests begin at 1. The only error is a failed allocation.
    pub fn from_sorted(entries: Vec<Entry<u16, LastReply>>) -> Result<Sessions, AllocError>
        requires sorted { IsTrue (map.is_sorted nat_cmp entries.items) }
        requires fit { All SessionFits entries.items }
        ensures sessions { IfOk result (λ sessions. sessions ≡ map.from_sorted entries.items) }
        ensures entries { IfOk result (λ sessions. map.entries sessions ≡ entries.items) }
    {
        let alloc = *entries.allocator();
        Ok(Sessions {
            entries: Arc::new(alloc, SortedMap::from_sorted(entries))?,
        })
    }

    /// What is kept of each client, by rising clients: of up to `MOST_CLIENTS`.
    pub fn entries(&self) -> &[Entry<u16, LastReply>]
        ensures entries { result.now ≡ map.entries self.now }
        ensures sorted { IsTrue (map.is_sorted nat_cmp result.now) }
        ensures fit { All SessionFits result.now }
        ensures few { length result.now ≤ MOST_CLIENTS }
    {
        let entries = self.entries.entries();
        are_few(entries);
        entries
    }

    /// Whether the request is the next of its client: its number is 1 above the last kept, or 1
    /// if none is kept. After the number 2^64 - 1 a client has no next request.
    #[tactic(auto, using(crate::proofs::FreshLemmas::checked_is))]
    pub fn fresh(&self, request: &Request) -> bool
        ensures { result ≡ is_next self.now request.now }
    {
        match self.last(request.client) {
            None => request.number == 1,
            Some(kept) => request.number.checked_sub(1) == Some(kept.number),
        }
    }

    /// Keeps the reply of a request that ran, in place of what was kept of its client. It takes memory
    /// for this one entry, and if the sessions are shared with a clone for a pointer to each other
    /// one, which are shared on. If an allocation fails nothing changes.
    pub fn keep(&mut self, request: &Request, reply: Reply) -> Result<(), AllocError>
        ensures ok { OnOk result (self.new
            ≡ map.insert self.old request.now.client (record { number = request.now.number; reply = reply })) }
        ensures err { OnErr result (self.new ≡ self.old) }
    {
        let kept = LastReply {
            number: request.number,
            reply,
        };
        put_entry(&mut self.entries, request.client, kept)
    }

    /// The number and the reply of the client's last request that ran, if one did.
    pub fn kept(&self, client: u16) -> Option<(u64, &Reply)>
        ensures { MatchOption result (map.get self.now client ≡ None)
            (λ k. map.get self.now client ≡ Some (record { number = k.0; reply = k.1.now })) }
    {
        let kept = self.last(client)?;
        Some((kept.number, &kept.reply))
    }

    fn last(&self, client: u16) -> Option<&LastReply>
        ensures { option_copied result ≡ map.get self.now client }
    {
        self.entries.get(&client)
    }
}

impl Clone for Sessions {
    ghost is_clone = { λ sessions copy. copy ≡ sessions };

    /// The same sessions, shared. It takes no memory, and fails only if there are too many clones
    /// to be counted.
    fn clone(&self) -> Result<Sessions, AllocError> {
        Ok(Sessions {
            entries: Arc::try_clone(&self.entries)?,
        })
    }
}
