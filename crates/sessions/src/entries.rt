//! Entries in a map that may be shared, sorted by their clients.

ghost use Rattle.std.specs.Prelude.{◌≡◌, ◌≤◌, ◌<◌, ◌-◌, ℕ, IsTrue, OnOk, OnErr, length, slice_index_or};
ghost use Rattle.std.specs.Arc.{arc_value};
ghost use Rattle.std.specs.Ordering.{nat_cmp};
ghost use Rattle.std.specs.FinMap.{is_sorted, put};
ghost use Rattle.sessions.specs.declared.sessions.LastReply.{LastReply};
ghost use Rattle.sessions.specs.declared.sessions.TheConstants.{MOST_CLIENTS};

use crate::sessions::LastReply;
use base::{Entry, SortedMap};
use std::alloc::{AllocError, Global};
use std::sync::Arc;

/// Puts an entry of its own for the client. If the map is shared, it is first copied: a pointer for
/// each entry. If an allocation fails nothing changes.
pub fn put_entry(
    entries: &mut Arc<SortedMap<u16, LastReply>, Global>,
    client: u16,
    kept: LastReply,
) -> Result<(), AllocError>
    ensures ok { OnOk result (arc_value entries.new ≡ put nat_cmp client kept (arc_value entries.old)) }
    ensures err { OnErr result (arc_value entries.new ≡ arc_value entries.old) }
{
    Arc::make_mut(entries)?.insert(client, kept)
}

/// Clients that rise to this one are no more than there are numbers of clients. It does nothing.
fn rise_to(entries: &[Entry<u16, LastReply>], last: u16)
    requires rising { IsTrue (is_sorted nat_cmp entries.now) }
    requires some { 0 < length entries.now }
    requires last { (d : ℕ × LastReply) → (slice_index_or entries.now (length entries.now - 1) d).0 ≡ last }
    ensures { length entries.now ≤ MOST_CLIENTS }
{}

/// There are no more sessions than numbers of clients. It does nothing.
pub fn are_few(entries: &[Entry<u16, LastReply>])
    requires { IsTrue (is_sorted nat_cmp entries.now) }
    ensures { length entries.now ≤ MOST_CLIENTS }
{
    if !entries.is_empty() {
        rise_to(entries, *entries[entries.len() - 1].key());
    }
}
