ghost use Rattle.std.specs.Prelude.{◌≡◌, IsTrue, OnOk};
ghost use Rattle.std.specs.Ordering.{is_lt};
ghost use Rattle.std.specs.FinMap.{is_sorted};
ghost use Rattle.items.specs.Map.{by_bytes};
ghost use Rattle.wire.specs.Record.{Puts};
ghost use Rattle.wire.specs.Item.{page_text, PageFits, EntriesFit};
ghost use Rattle.wire.specs.ItemLaws.{page_prefix_free};

use crate::counted::{Counted, put_list};
use crate::front::take_mark;
use crate::record::Record;
use crate::sink::Sink;
use base::Entry;
use items::Item;
use proto::{Fault, Key};
use std::alloc::Global;
use std::marker::Model;

/// The entries of a page, by strictly rising keys.
#[derive(Drop)]
pub struct Entries {
    entries: Vec<Entry<Key, Item>>,
}

impl Model for Entries {
    ghost use Rattle.std.specs.Prelude.{List, ℕ, IsTrue};
    ghost use Rattle.std.specs.FinMap.{is_sorted};
    ghost use Rattle.items.specs.declared.item.Item.{Item};
    ghost use Rattle.items.specs.Map.{by_bytes};

    ghost Value = { List (List ℕ × Item) };

    ghost view = { λ e. e.entries.items };

    ghost invariant = { λ e. IsTrue (is_sorted by_bytes e.entries.items) };
}

impl Entries {
    /// These entries, which are in the order of strictly rising keys.
    pub fn new(entries: Vec<Entry<Key, Item>>) -> Entries
        requires { IsTrue (is_sorted by_bytes entries.items) }
        ensures { result ≡ entries.items }
    {
        Entries { entries }
    }

    /// The entries, by strictly rising keys.
    pub fn as_slice(&self) -> &[Entry<Key, Item>]
        ensures entries { result.now ≡ self.now }
        ensures rising { IsTrue (is_sorted by_bytes self.now) }
    {
        self.entries.as_slice()
    }

    /// The vector of the entries.
    pub fn into_vec(self) -> Vec<Entry<Key, Item>>
        ensures entries { result.items ≡ self }
        ensures rising { IsTrue (is_sorted by_bytes self) }
    {
        self.entries
    }
}

/// Whether the keys strictly rise.
fn is_rising(entries: &[Entry<Key, Item>]) -> bool
    ensures { result ≡ is_sorted by_bytes entries.now }
{
    entries.is_sorted_by(
        |a: &Entry<Key, Item>, b: &Entry<Key, Item>| -> bool
            ensures { result ≡ is_lt (by_bytes a.entry.now.0 b.entry.now.0) }
        { a.key().compare(b.key()).is_lt() },
    )
}

/// Writes the text of a page that has these entries.
#[tactic(auto, unfolding(crate::specs::Item::page_text))]
pub fn put_page<S: Sink>(entries: &[Entry<Key, Item>], sink: &mut S) -> Result<(), S::Refusal>
    requires { PageFits entries.now }
    ensures { OnOk result (Puts S.holds (page_text entries.now) sink.old sink.new) }
{
    sink.put(&[0u8])?;
    put_list(entries, sink)
}

impl Record for Entries {
    ghost fits = { EntriesFit };

    ghost encoding = { page_text };

    fn put<S: Sink>(&self, sink: &mut S) -> Result<(), S::Refusal> {
        put_page(self.as_slice(), sink)
    }

    #[tactic(auto, unfolding(crate::specs::Item::page_text))]
    fn take<'b>(alloc: Global, bytes: &'b [u8]) -> Result<(Entries, &'b [u8]), Fault> {
        let rest = take_mark(bytes, 0)?;
        let (listed, rest) = Counted::<Entry<Key, Item>>::take(alloc, rest)?;
        let entries = listed.into_vec();
        if !is_rising(entries.as_slice()) {
            return Err(Fault::BadRecord);
        }
        Ok((Entries::new(entries), rest))
    }

    ghost prefix_free = { page_prefix_free };
}
