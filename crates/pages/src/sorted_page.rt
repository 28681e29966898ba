//! A page in the order of its keys.

ghost use Rattle.std.specs.Prelude.{◌≡◌, ◌≢◌, ◌≤◌, ◌+◌, ◌^◌, ◌↔◌, ◌∷◌, [], true, false, length, None, IfOk, IfSome, OnOk, OnErr, IsTrue};
ghost use Rattle.std.specs.Option.{option_copied};
ghost use Rattle.std.specs.FinMap as map;
ghost use Rattle.items.specs.Map.{alive};
ghost use Rattle.wire.specs.Item.{page_text, PageFits};
ghost use Rattle.wire.specs.Record.{Puts};
ghost use Rattle.pages.specs.Page.{beside_due};
ghost use Rattle.pages.specs.Layout.{digest_in};
ghost use Rattle.pages.specs.declared.layout.Layout.TheVariants.{Sorted};

use base::{Entry, Text};
use items::{Item, PlainStore, Store};
use proto::Key;
use std::alloc::{AllocError, Global};
use std::marker::Model;
use std::sync::Arc;
use token::{Digested, page_digest};
use wire::{Sink, put_page, share_text};

/// Items in the order of their keys: a store by itself.
///
/// Its entries are shared with its clones. If they are, the first write copies the pointers to
/// them, so a clone keeps what it had. The digest of the items and, if there was memory for it,
/// the text that it is of are kept until a write; clones share that text.
pub(crate) struct SortedPage {
    alloc: Global,
    store: Arc<PlainStore, Global>,
    /// Of the page's text; none if it is to be recomputed.
    digested: Option<Digested>,
}

impl Drop for SortedPage {
    fn drop(self) {
        let SortedPage {
            alloc: _,
            store: _,
            digested: _,
        } = self;
    }
}

impl Model for SortedPage {
    ghost use Rattle.std.specs.Arc.{arc_value};
    ghost use Rattle.std.specs.Coded.{coded_list, coded_ℕ};
    ghost use Rattle.std.specs.FinMap as map;
    ghost use Rattle.items.specs.Map.{Items};
    ghost use Rattle.items.specs.contracts.item.Item as item;
    ghost use Rattle.pages.specs.Page.{IsPage};

    ghost Value = { Items };

    ghost coded = { map.code (coded_list coded_ℕ) item.the_row.coded };

    ghost view = { λ a. arc_value a.store };

    ghost invariant = { λ a. IsPage (arc_value a.store) a.digested };
}

/// Lets go of the digest, and of the text beside it.
fn forget(digested: &mut Option<Digested>)
    ensures { digested.new ≡ None }
{
    *digested = None;
}

impl SortedPage {
    /// A page of these items. The only error is a failed allocation.
    pub(crate) fn of_store(alloc: Global, store: PlainStore) -> Result<SortedPage, AllocError>
        requires { PageFits (map.entries store) }
        ensures { IfOk result (λ page. page ≡ store) }
    {
        Ok(SortedPage {
            alloc,
            store: Arc::new(alloc, store)?,
            digested: None,
        })
    }

    /// The items, as a sorted vector.
    pub(crate) fn store(&self) -> &PlainStore
        ensures { result.now ≡ self.now }
    {
        &self.store
    }

    /// Its entries, in the order of their keys. A page's text can be written of them.
    pub(crate) fn entries(&self) -> &[Entry<Key, Item>]
        ensures entries { result.now ≡ map.entries self.now }
        ensures fit { PageFits result.now }
    {
        self.store.as_slice()
    }

    /// The digest: that which is kept, or else from all entries. This takes no memory.
    pub(crate) fn digest(&self) -> [u8; 32]
        ensures { result ≡ digest_in Sorted self.now }
    {
        match &self.digested {
            Some(digested) => *digested.digest(),
            None => page_digest(self.entries()),
        }
    }

    /// The text that is kept beside the digest. None if the digest is to be recomputed, or if
    /// there was no memory for the text when it was made.
    pub(crate) fn text(&self) -> Option<&Text>
        ensures { IfSome result (λ text. text.now ≡ page_text (map.entries self.now)) }
    {
        match &self.digested {
            Some(digested) => digested.text(),
            None => None,
        }
    }

    /// Writes the page's text: the pieces that are kept, shared, or else the entries one by one.
    pub(crate) fn put_text<S: Sink>(&self, sink: &mut S) -> Result<(), S::Refusal>
        ensures { OnOk result (Puts S.holds (page_text (map.entries self.now)) sink.old sink.new) }
    {
        match self.text() {
            Some(text) => share_text(text, sink),
            None => put_page(self.entries(), sink),
        }
    }

    /// Makes the digest new if none is kept, and keeps the text that it is of. If there is no
    /// memory for the text the digest is made without it; there is no error.
    pub(crate) fn refresh(&mut self)
        ensures { self.new ≡ self.old }
    {
        if self.digested.is_none() {
            self.digested = Some(Digested::of_page(self.alloc, self.store.as_slice()));
        }
    }

    pub(crate) fn get(&self, key: &Key) -> Option<&Item>
        ensures { option_copied result ≡ map.get self.now key.now }
    {
        self.store.get(key)
    }

    /// Whether an item is due at the moment or before it. It looks at one entry of the page's index at
    /// most.
    fn finds_due(&self, moment: u32, looks: &mut u64) -> bool
        ensures none { result ≡ false → alive self.now moment ≡ self.now }
        ensures some { result ≡ true → alive self.now moment ≢ self.now }
        ensures count { looks.new ≤ looks.old + 1 }
    {
        self.store.has_due(moment, looks)
    }

    /// The same, without a count.
    pub(crate) fn has_due(&self, moment: u32) -> bool
        ensures none { result ≡ false → alive self.now moment ≡ self.now }
        ensures some { result ≡ true → alive self.now moment ≢ self.now }
    {
        let mut looks = 0;
        self.finds_due(moment, &mut looks)
    }

    /// Drops every item that is due at the moment or before it, as `drop_due`, and answers how many
    /// entries it looked at or copied: of the page's index one more than it dropped, at most, and if
    /// something is due all entries of the page. If nothing is due the page stays shared. The only
    /// error is a failed allocation, and then nothing has changed.
    pub(crate) fn drop_due_counted(&mut self, moment: u32) -> Result<u64, AllocError>
        ensures ok { OnOk result (self.new ≡ alive self.old moment) }
        ensures err { OnErr result (self.new ≡ self.old) }
        ensures count { IfOk result (λ looks. looks + length (map.entries self.new)
            ≤ length (map.entries self.old) + 1 + beside_due moment (self.old ∷ [])) }
        ensures least { IfOk result (λ looks. beside_due moment (self.old ∷ []) ≤ looks) }
        ensures dropped { IfOk result (λ looks. length (map.entries self.old) ≤ looks + length (map.entries self.new)) }
    {
        let mut looks = 0;
        if !self.finds_due(moment, &mut looks) {
            return Ok(looks);
        }
        let copied = self.entries().len() as u64;
        Arc::make_mut(&mut self.store)?.drop_found(moment, &mut looks);
        forget(&mut self.digested);
        Ok(looks.saturating_add(copied))
    }

    /// Puts the item, for which there is room. The only error is a failed allocation, and then nothing
    /// has changed.
    pub(crate) fn put(&mut self, key: Key, item: Item) -> Result<(), AllocError>
        requires { PageFits (map.entries (map.insert self.old key item)) }
        ensures ok { OnOk result (self.new ≡ map.insert self.old key item) }
        ensures err { OnErr result (self.new ≡ self.old) }
    {
        Arc::make_mut(&mut self.store)?.put(key, item)?;
        forget(&mut self.digested);
        Ok(())
    }

    /// Removes the item of the key, if there is one: else the page stays shared. The only error is a
    /// failed allocation, and then nothing has changed.
    pub(crate) fn remove(&mut self, key: &Key) -> Result<(), AllocError>
        ensures ok { OnOk result (self.new ≡ map.remove self.old key.now) }
        ensures err { OnErr result (self.new ≡ self.old) }
    {
        if self.get(key).is_some() {
            Arc::make_mut(&mut self.store)?.remove(key)?;
            forget(&mut self.digested);
        }
        Ok(())
    }
}

impl Clone for SortedPage {
    ghost is_clone = { λ page copy. copy ≡ page };

    /// The same page, shared.
    fn clone(&self) -> Result<SortedPage, AllocError> {
        Ok(SortedPage {
            alloc: self.alloc,
            store: Arc::try_clone(&self.store)?,
            digested: self.digested.clone()?,
        })
    }
}
