//! Requests under their clients, in the order of arrival.

ghost use Rattle.std.specs.List.{list_all};
ghost use Rattle.std.specs.Prelude.{◌≡◌, ◌≤◌, ◌++◌, ◌∷◌, [], nat_eq, length, min, filter, not, vec_capacity, OnOk, OnErr};
ghost use Rattle.indexmap.specs.IndexMap.{values, index_map_len, spare};
ghost use Rattle.batches.specs.Waiting.{IsOneEach, keyed, added, is_later};
ghost use Rattle.batches.specs.Cut.{is_past, waits_on, taken as first, left as others};
ghost use Rattle.batches.specs.declared.batch.TheConstants.{MOST_REQUESTS};

use crate::batch::MOST_REQUESTS;
use indexmap::IndexMap;
use sessions::{Request, Sessions};
use std::alloc::AllocError;

/// Whether no request of the client waits that has the same number or a higher one.
fn comes_later(waiting: &IndexMap<u16, Request>, request: &Request) -> bool
    requires { waiting.now.entries ≡ keyed (values waiting.now) }
    ensures { result ≡ is_later request.now (values waiting.now) }
{
    match waiting.get(&request.client) {
        None => true,
        Some(held) => held.number < request.number,
    }
}

/// A request comes to those that wait.
pub fn add_request(waiting: &mut IndexMap<u16, Request>, request: Request) -> Result<(), AllocError>
    requires { waiting.old.entries ≡ keyed (values waiting.old) }
    ensures ok { OnOk result (waiting.new.entries ≡ keyed (added request (values waiting.old))) }
    ensures err { OnErr result (waiting.new.entries ≡ waiting.old.entries) }
{
    if comes_later(waiting, &request) {
        set_last(waiting, request.client, request)?;
    }
    Ok(())
}

/// Sets the value of the key, and puts it last.
fn set_last<V: Drop>(map: &mut IndexMap<u16, V>, key: u16, value: V) -> Result<(), AllocError>
    ensures ok { OnOk result (map.new.entries
        ≡ filter (λ e. not (nat_eq key e.0)) map.old.entries ++ (key, value) ∷ []) }
    ensures err { OnErr result (map.new.entries ≡ map.old.entries) }
{
    // Once there is room, nothing below can fail.
    map.reserve(1)?;
    map.shift_remove(&key);
    map.insert(key, value).unwrap();
    Ok(())
}

/// Whether the client's last request that ran has this number or a higher one.
fn has_run(sessions: &Sessions, request: &Request) -> bool
    ensures { result ≡ is_past sessions.now request.now }
{
    match sessions.kept(request.client) {
        None => false,
        Some((number, _)) => request.number <= number,
    }
}

/// Whether the request is neither the next of its client nor has run.
fn is_ahead(sessions: &Sessions, request: &Request) -> bool
    ensures { result ≡ waits_on sessions.now request.now }
{
    !sessions.fresh(request) && !has_run(sessions, request)
}

/// Whether no request is the next of its client, and none has run.
pub fn all_wait_on(waiting: &IndexMap<u16, Request>, sessions: &Sessions) -> bool
    ensures { result ≡ list_all (waits_on sessions.now) (values waiting.now) }
{
    for request in waiting.values() {
        if !is_ahead(sessions, request) {
            return false;
        }
    }
    true
}

/// Parts what waits into the requests of the next batch and those that wait on. There is room for
/// both, so no memory is needed.
pub fn part(
    waiting: IndexMap<u16, Request>,
    sessions: &Sessions,
    taken: &mut Vec<Request>,
    left: &mut IndexMap<u16, Request>,
)
    requires one_each { IsOneEach (values waiting) }
    requires none_taken { taken.old.items ≡ [] }
    requires none_left { left.old.entries ≡ [] }
    requires taken_fit { min (index_map_len waiting) MOST_REQUESTS ≤ vec_capacity taken.old }
    requires left_fit { index_map_len waiting ≤ spare left.old }
    ensures taken { taken.new.items ≡ first MOST_REQUESTS sessions.now (values waiting) }
    ensures left { left.new.entries ≡ keyed (others MOST_REQUESTS sessions.now (values waiting)) }
{
    for request in waiting.into_values() {
        if taken.len() < MOST_REQUESTS && sessions.fresh(&request) {
            taken.push_reserved(request);
        } else if !has_run(sessions, &request) {
            left.insert(request.client, request).unwrap();
        }
    }
}
