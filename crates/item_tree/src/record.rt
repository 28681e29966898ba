//! The text of the items of a page that a tree keeps: a mark, their number, and the entries in the order
//! of their paths.

ghost use Rattle.std.specs.Prelude.{◌≡◌, ◌↔◌, IsTrue, IfOk};
ghost use Rattle.item_tree.specs.Text.{path_entries};

use crate::same::are_same;
use crate::store::ItemTree;
use base::Entry;
use items::Item;
use proto::{Fault, Key};
use std::alloc::{AllocError, Global};
use wire::{Counted, Record, Sink, put_count, take_mark};

/// What the text begins with.
const MARK: u8 = 6;

impl Record for ItemTree {
    ghost use Rattle.item_tree.specs.Text.{tree_text, TreeFits};
    ghost use Rattle.item_tree.specs.TextLaws.{tree_prefix_free};

    ghost fits = { TreeFits };

    ghost encoding = { tree_text };

    #[tactic(auto, unfolding(crate::specs::Text::tree_text))]
    fn put<S: Sink>(&self, sink: &mut S) -> Result<(), S::Refusal> {
        sink.put(&[MARK])?;
        put_count(self.items.len() as usize, sink)?;
        self.items.put_texts(sink)
    }

    #[tactic(auto, unfolding(crate::specs::Text::tree_text))]
    fn take<'b>(alloc: Global, bytes: &'b [u8]) -> Result<(ItemTree, &'b [u8]), Fault> {
        let rest = take_mark(bytes, MARK)?;
        let (listed, rest) = Counted::<Entry<Key, Item>>::take(alloc, rest)?;
        let store = ItemTree::of_entries(alloc, listed.as_slice())?;
        if !store.has_order(alloc, listed.as_slice())? {
            return Err(Fault::BadRecord);
        }
        Ok((store, rest))
    }

    ghost prefix_free = { tree_prefix_free };
}

impl ItemTree {
    /// Whether the entries are its own, in the order of their paths.
    fn has_order(&self, alloc: Global, listed: &[Entry<Key, Item>]) -> Result<bool, AllocError>
        ensures { IfOk result (λ has. IsTrue has ↔ (path_entries self.now ≡ listed.now)) }
    {
        let entries = self.entries(alloc)?;
        Ok(are_same(entries.as_slice(), listed))
    }
}
