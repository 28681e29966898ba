//! The entries that have a due time, in a vector by those times and then by their keys.
//!
//! The soonest is first. A put of a time that is later than all others, as of a session that is
//! renewed, goes to the end and moves nothing; what is due is taken from the front, with one move of
//! the others.

ghost use Rattle.std.specs.Prelude.{◌≡◌, ◌≤◌, ◌<◌, ◌+◌, ℕ, List, IsTrue, false, IfOk, IfErr, IsSome, OnOk, not, nat_lt, vec_len, vec_capacity, length, drop, slice_index_or};
ghost use Rattle.std.specs.FinMap.{is_sorted, put};
ghost use Rattle.std.specs.FinMap.Entries.{where_key};
ghost use Rattle.base.specs.Places.{IsAt, IsGap};
ghost use Rattle.items.specs.Map.{by_bytes};
ghost use Rattle.items.specs.Index.{by_due, with_due, without_due, IsDueUpTo, IsLaterFrom, IsIndex};
ghost use Rattle.items.specs.declared.item.Item.{Item as ItemView};

use crate::item::Item;
use base::Entry;
use proto::Key;
use std::alloc::{AllocError, Global};
use std::cmp::Ordering;
use std::marker::Model;

/// A due time, and the entry that is due then, shared with the store that has it.
pub(crate) struct Due {
    time: u64,
    entry: Entry<Key, Item>,
}

impl Drop for Due {
    fn drop(self) {
        let Due { time: _, entry: _ } = self;
    }
}

impl Model for Due {
    ghost use Rattle.std.specs.Prelude.{List, ℕ};
    ghost use Rattle.items.specs.declared.item.Item.{Item as ItemView};

    ghost Value = { (ℕ × List ℕ) × ItemView };

    ghost view = { λ a. ((a.time, a.entry.0), a.entry.1) };
}

impl Due {
    pub(crate) fn key(&self) -> &Key
        ensures { result.now ≡ self.now.0.1 }
    {
        self.entry.key()
    }

    fn compare(&self, time: u64, key: &Key) -> Ordering
        ensures { result ≡ by_due self.now.0 (time, key.now) }
    {
        match self.time.cmp(&time) {
            Ordering::Equal => self.entry.key().cmp(key),
            apart => apart,
        }
    }
}

impl Clone for Due {
    ghost is_clone = { λ due copy. copy ≡ due };

    /// The same entry, shared.
    fn clone(&self) -> Result<Due, AllocError> {
        Ok(Due {
            time: self.time,
            entry: self.entry.clone()?,
        })
    }
}

/// Where the time and the key are, or would be.
fn place_of(index: &[Due], time: u64, key: &Key) -> Result<usize, usize>
    requires { IsTrue (is_sorted by_due index.now) }
    ensures found { IfOk result (IsAt by_due index.now (time, key.now)) }
    ensures absent { IfErr result (IsGap by_due index.now (time, key.now)) }
{
    index.binary_search_by(
        |due: &Due| -> Ordering
            ensures { result ≡ by_due due.now.0 (time, key.entry.now) }
        { due.compare(time, key) },
    )
}

/// Puts the entry at its place. There is room for it.
fn put_due(index: &mut Vec<Due>, due: Due)
    requires sorted { IsTrue (is_sorted by_due index.old.items) }
    requires room { vec_len index.old < vec_capacity index.old }
    ensures { index.new.items ≡ put by_due due.0 due.1 index.old.items }
{
    match place_of(index, due.time, due.entry.key()) {
        Ok(at) => index[at] = due,
        Err(at) => {
            if let Err(_) = index.insert(at, due) {
                unreachable!()
            }
        }
    }
}

/// Takes out what is at the time and the key, if there is a time.
pub(crate) fn remove_due(index: &mut Vec<Due>, time: Option<u64>, key: &Key)
    requires { IsTrue (is_sorted by_due index.old.items) }
    ensures removed { index.new.items ≡ without_due time key.now index.old.items }
    ensures len { vec_len index.new ≤ vec_len index.old }
    ensures capacity { vec_capacity index.new ≡ vec_capacity index.old }
{
    if let Some(time) = time {
        if let Ok(at) = place_of(index, time, key) {
            let _ = index.remove(at);
        }
    }
}

/// Whether there is an entry at this place of the index, and it is due at the moment or before it.
///
/// This is the one call that reads an entry of the index to see whether it is due, and it counts
/// each that it reads.
pub(crate) fn is_due(index: &[Due], at: usize, moment: u32, looks: &mut u64) -> bool
    ensures none { length index.now ≤ at → result ≡ false }
    ensures some { (due : (ℕ × List ℕ) × ItemView) → at < length index.now → result ≡ not (nat_lt moment (slice_index_or index.now at due).0.0) }
    ensures count { looks.new ≤ looks.old + 1 }
{
    match index.get(at) {
        Some(due) => {
            *looks = looks.saturating_add(1);
            due.time <= u64::from(moment)
        }
        None => false,
    }
}

/// How many entries of the index are due at the moment or before it. Its first one is.
pub(crate) fn count_due(index: &[Due], moment: u32, looks: &mut u64) -> usize
    requires some { 0 < length index.now }
    requires first { IsDueUpTo moment index.now 1 }
    ensures within { result ≤ length index.now }
    ensures due { IsDueUpTo moment index.now result }
    ensures later { IsLaterFrom moment index.now result }
    ensures count { looks.new ≤ looks.old + result }
{
    for at in 1..index.len() {
        if !is_due(index, at, moment, looks) {
            return at;
        }
    }
    index.len()
}

/// Takes so many entries out of the index, the soonest.
pub(crate) fn take_first(index: &mut Vec<Due>, count: usize)
    requires { count ≤ length index.old.items }
    ensures { index.new.items ≡ drop count index.old.items }
{
    let left = index.len() - count;
    index.rotate_left(count);
    index.truncate(left);
}

/// Puts the entry into the index, if it has a due time. There is room for it.
pub(crate) fn add_due(index: &mut Vec<Due>, entry: Entry<Key, Item>)
    requires sorted { IsTrue (is_sorted by_due index.old.items) }
    requires room { IsSome entry.1.due → vec_len index.old < vec_capacity index.old }
    ensures { index.new.items ≡ with_due entry.1.due entry.0 entry.1 index.old.items }
{
    if let Some(time) = entry.value().due {
        put_due(index, Due { time, entry });
    }
}

/// Makes room for one entry more, if there is a due time.
pub(crate) fn make_room(index: &mut Vec<Due>, due: Option<u64>) -> Result<(), AllocError>
    ensures same { index.new.items ≡ index.old.items }
    ensures room { OnOk result (IsSome due → vec_len index.new < vec_capacity index.new) }
{
    if due.is_some() {
        index.reserve(1)?;
    }
    Ok(())
}

/// The index of these entries.
pub(crate) fn index_of(alloc: Global, entries: &[Entry<Key, Item>]) -> Result<Vec<Due>, AllocError>
    requires { IsTrue (is_sorted by_bytes entries.now) }
    ensures { IfOk result (λ index. IsIndex index.items entries.now) }
{
    let mut index = Vec::new(alloc);
    for entry in entries {
        make_room(&mut index, entry.value().due)?;
        add_due(&mut index, entry.clone()?);
    }
    Ok(index)
}
