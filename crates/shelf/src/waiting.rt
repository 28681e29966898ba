//! What is in memory of a file's changes: those whose items are not in their rows.

ghost use Rattle.std.specs.Prelude.{◌≡◌};

use base::Entry;
use item_rows::RowItems;
use items::Item;
use proto::Key;
use std::alloc::{AllocError, Global};
use std::mem;

/// With fewer bytes of changes no items are written to rows.
const LEAST_BYTES: u64 = 4 << 20;

/// With so many bytes of changes items are written to rows, however few changes those are.
const MOST_BYTES: u64 = 64 << 20;

/// What an item takes in a change row beside its key and its data, about.
const HEAD_BYTES: usize = 32;

/// How many bytes an item takes in a change row, about.
fn bytes_of(entry: &Entry<Key, Item>) -> u64 {
    let key = entry.key().as_slice().len();
    let data = entry.value().block.len();
    key.saturating_add(data).saturating_add(HEAD_BYTES) as u64
}

/// How many bytes the items of a row take in a change row, about.
fn bytes_at(row_items: &RowItems) -> u64 {
    let mut bytes = HEAD_BYTES as u64;
    for entry in row_items.1.as_slice() {
        bytes = bytes.saturating_add(bytes_of(entry));
    }
    bytes
}

/// How many bytes changes take in their rows, about.
fn bytes_in(changes: &[RowItems]) -> u64 {
    let mut bytes = 0u64;
    for row_items in changes {
        bytes = bytes.saturating_add(bytes_at(row_items));
    }
    bytes
}

/// The changes of a file whose items are not in their rows.
pub struct WaitingChanges {
    /// Changes whose items are written to rows next, mostly in the order of row numbers. They are of the saves from `first`
    /// up to `middle`.
    pub pending: Vec<RowItems>,
    /// So many of them are in their rows.
    pub done: usize,
    /// Later changes, in the order of saves: from `middle` up to `next`.
    pub gathered: Vec<RowItems>,
    /// How many bytes those take in their rows, about.
    pub bytes: u64,
    pub first: u64,
    pub middle: u64,
    /// The number of the next save.
    pub next: u64,
}

impl Drop for WaitingChanges {
    fn drop(self) {
        let WaitingChanges {
            pending: _,
            done: _,
            gathered: _,
            bytes: _,
            first: _,
            middle: _,
            next: _,
        } = self;
    }
}

impl WaitingChanges {
    ghost use Rattle.std.specs.Prelude.{◌≡◌, ◌⊎◌, ◌≤◌, ◌<◌, ◌+◌, ◌^◌, [], take, length, OnOk, vec_len, vec_capacity};
    ghost use Rattle.shelf.specs.InMemory.{waiting_view};
    ghost use Rattle.shelf.specs.WaitingView.{first_after, waiting_after, Rotates};

    /// The changes of a file whose saves have the numbers from `first` up to `next`.
    pub fn of_file(alloc: Global, first: u64, next: u64, changes: Vec<RowItems>) -> WaitingChanges
        ensures { waiting_view result ≡ record { pending = []; gathered = changes.items; first = first; middle = first; next = next } }
    {
        WaitingChanges {
            pending: Vec::new(alloc),
            done: 0,
            bytes: bytes_in(&changes),
            gathered: changes,
            first,
            middle: first,
            next,
        }
    }

    /// The pending changes.
    pub fn rest(&self) -> &[RowItems]
        ensures { result.now ≡ (waiting_view self.now).pending }
    {
        match self.pending.get(self.done..) {
            Some(rest) => rest,
            None => &[],
        }
    }

    /// How many changes are pending.
    pub fn left(&self) -> usize
        ensures { result ≡ length (waiting_view self.now).pending }
    {
        self.rest().len()
    }

    /// The next pending changes.
    pub fn front(&self, count: usize) -> &[RowItems]
        requires { count ≤ length (waiting_view self.now).pending }
        ensures { result.now ≡ take count (waiting_view self.now).pending }
    {
        &self.rest()[..count]
    }

    /// The first save whose changes are not all in rows, once so many of the pending changes are.
    pub fn first_after(&self, count: usize) -> u64
        ensures { result ≡ first_after (waiting_view self.now) count }
    {
        if count == self.left() {
            self.middle
        } else {
            self.first
        }
    }

    /// Makes room for so many more changes. An error changes nothing.
    pub fn reserve(&mut self, more: usize) -> Result<(), AllocError>
        ensures same { waiting_view self.new ≡ waiting_view self.old }
        ensures room { OnOk result (vec_len self.new.gathered + more ≤ vec_capacity self.new.gathered) }
    {
        self.gathered.reserve(more)
    }

    /// Notes a save of these changes, with which so many of the pending ones came into their rows. The changes are taken.
    pub fn note(&mut self, count: usize, changes: &mut Vec<RowItems>)
        requires count { count ≤ length (waiting_view self.old).pending }
        requires room { vec_len self.old.gathered + vec_len changes.old ≤ vec_capacity self.old.gathered }
        requires next { self.old.next < 2 ^ 63 }
        ensures noted { waiting_view self.new ≡ waiting_after (waiting_view self.old) count changes.old.items }
        ensures taken { changes.new.items ≡ [] }
    {
        self.bytes = self.bytes.saturating_add(bytes_in(changes));
        self.first = self.first_after(count);
        self.done += count;
        self.next += 1;
        let _ = self.gathered.append(changes);
    }

    /// Whether it is time to write the gathered changes to rows: there are at least so many of them, and they have at least
    /// `LEAST_BYTES`; or they have `MOST_BYTES`.
    pub fn has_enough(&self, least: usize) -> bool {
        let is_long = LEAST_BYTES <= self.bytes && least <= self.gathered.len();
        is_long || MOST_BYTES <= self.bytes
    }

    /// If it is due and nothing is pending, the gathered changes are pending from now on.
    pub fn rotate(&mut self, alloc: Global, is_due: bool)
        ensures { (waiting_view self.new ≡ waiting_view self.old) ⊎ Rotates (waiting_view self.old) (waiting_view self.new) }
    {
        if self.left() == 0 && self.first == self.middle && is_due {
            let mut pending = mem::replace(&mut self.gathered, Vec::new(alloc));
            self.bytes = 0;
            let _ = pending.sort_by_key(|row_items: &RowItems| row_items.0);
            self.done = 0;
            self.pending = pending;
            self.middle = self.next;
        }
    }
}
