//! The text of a page, read. What it begins with tells the layout.

ghost use Rattle.std.specs.Prelude.{◌≡◌};
ghost use Rattle.wire.specs.Record.{Always, Takes};
ghost use Rattle.pages.specs.Record.{page_record};
ghost use Rattle.pages.specs.declared.layout.Layout.TheVariants as laid;

use crate::page::Page;
use item_tree::ItemTree;
use proto::Fault;
use std::alloc::Global;
use wire::{Entries, Record};

impl Page {
    /// The sorted page whose text is a prefix of the bytes.
    fn take_sorted<'b>(alloc: Global, bytes: &'b [u8]) -> Result<(Page, &'b [u8]), Fault>
        ensures { Takes (λ page. page.layout ≡ laid.Sorted) page_record bytes.now result }
    {
        let (entries, rest) = Entries::take(alloc, bytes)?;
        Ok((Page::from_entries(alloc, entries)?, rest))
    }

    /// The page in a tree whose text is a prefix of the bytes.
    fn take_tree<'b>(alloc: Global, bytes: &'b [u8]) -> Result<(Page, &'b [u8]), Fault>
        ensures { Takes (λ page. page.layout ≡ laid.Tree) page_record bytes.now result }
    {
        let (tree, rest) = ItemTree::take(alloc, bytes)?;
        Ok((Page::of_tree(alloc, tree), rest))
    }

    /// The page whose text, as `put_text` writes it, is a prefix of the bytes, and the bytes after it.
    /// `BadRecord`: there is none. `NoMemory` is the only other error.
    pub fn take<'b>(alloc: Global, bytes: &'b [u8]) -> Result<(Page, &'b [u8]), Fault>
        ensures { Takes Always page_record bytes.now result }
    {
        match Page::take_sorted(alloc, bytes) {
            Ok(taken) => Ok(taken),
            Err(Fault::BadRecord) => Page::take_tree(alloc, bytes),
            Err(fault) => Err(fault),
        }
    }
}
