ghost use Rattle.std.specs.Prelude.{◌≡◌, ◌∷◌, OnOk, nat_le};
ghost use Rattle.std.specs.List.{list_all};
ghost use Rattle.std.specs.Ordering.{nat_cmp, is_lt};
ghost use Rattle.std.specs.FinMap.{is_sorted};
ghost use Rattle.sessions.specs.Limits.{KeptFits, SessionFits};
ghost use Rattle.wire.specs.Session.{kept_text, session_text, sessions_text, SessionsFit};
ghost use Rattle.wire.specs.Record.{Puts};
ghost use Rattle.wire.specs.Field.{list_text, ListFits};
ghost use Rattle.wire.specs.SessionLaws.{kept_prefix_free, sessions_prefix_free};

use crate::counted::{Counted, put_list};
use crate::front::take_mark;
use crate::record::Record;
use crate::sink::Sink;
use base::Entry;
use proto::{Fault, Reply};
use sessions::{LastReply, Sessions};
use std::alloc::Global;

impl Record for LastReply {
    ghost fits = { KeptFits };

    ghost encoding = { kept_text };

    fn put<S: Sink>(&self, sink: &mut S) -> Result<(), S::Refusal> {
        self.number.put(sink)?;
        self.reply.put(sink)
    }

    fn take<'b>(alloc: Global, bytes: &'b [u8]) -> Result<(LastReply, &'b [u8]), Fault> {
        let (row, rest) = <(u64, Reply)>::take(alloc, bytes)?;
        let (number, reply) = row;
        let kept = LastReply { number, reply };
        if kept.number == 0 {
            return Err(Fault::BadRecord);
        }
        Ok((kept, rest))
    }

    ghost prefix_free = { kept_prefix_free };
}

/// Whether the clients strictly rise.
fn is_rising(entries: &[Entry<u16, LastReply>]) -> bool
    ensures { result ≡ is_sorted nat_cmp entries.now }
{
    entries.is_sorted_by(
        |a: &Entry<u16, LastReply>, b: &Entry<u16, LastReply>| -> bool
            ensures { result ≡ is_lt (nat_cmp a.entry.now.0 b.entry.now.0) }
        { a.key().cmp(b.key()).is_lt() },
    )
}

/// Whether each client is one: they are numbered from 1.
fn are_clients(entries: &[Entry<u16, LastReply>]) -> bool
    ensures { result ≡ list_all (λ e. nat_le 1 e.0) entries.now }
{
    entries.iter().all(|entry| 1 <= *entry.key())
}

fn put_sessions<S: Sink>(entries: &[Entry<u16, LastReply>], sink: &mut S) -> Result<(), S::Refusal>
    requires { ListFits SessionFits entries.now }
    ensures { OnOk result (Puts S.holds (3 ∷ list_text session_text entries.now) sink.old sink.new) }
{
    sink.put(&[3u8])?;
    put_list(entries, sink)
}

impl Record for Sessions {
    ghost fits = { SessionsFit };

    ghost encoding = { sessions_text };

    fn put<S: Sink>(&self, sink: &mut S) -> Result<(), S::Refusal> {
        put_sessions(self.entries(), sink)
    }

    #[tactic(auto, unfolding(crate::specs::Session::sessions_text))]
    fn take<'b>(alloc: Global, bytes: &'b [u8]) -> Result<(Sessions, &'b [u8]), Fault> {
        let rest = take_mark(bytes, 3)?;
        let (listed, rest) = Counted::<Entry<u16, LastReply>>::take(alloc, rest)?;
        let entries = listed.into_vec();
        if !is_rising(entries.as_slice()) {
            return Err(Fault::BadRecord);
        }
        if !are_clients(entries.as_slice()) {
            return Err(Fault::BadRecord);
        }
        Ok((Sessions::from_sorted(entries)?, rest))
    }

    ghost prefix_free = { sessions_prefix_free };
}
