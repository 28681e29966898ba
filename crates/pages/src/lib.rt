//! A store of `PAGES` pages. The page of a key is the sum of its bytes modulo their number.
//!
//! A page is kept in one of two layouts: sorted by its keys, and its digest is SHA-256 of the page's text,
//! or as a Merkle tree over the paths of its keys, in which a write costs one path. Pages share all with
//! their clones: a write copies what it changes. A snapshot has its pages in groups, which it shares with the
//! `Pages` that are opened of it: a write copies the handles of one group, and a seal in the same layout leaves the
//! groups that were not written as they are. A write forgets what it changed of the digest, and
//! `Pages::seal` makes that new, in the layout that it is given. The tree over the digests of all pages has a branch for
//! each group, which is shared, too: a seal makes new just the nodes above the digests that changed.
//!
//! It is built on `base` (entries, texts), on `items` and `item_tree`, whose stores hold the items of one page,
//! on `wire` and `token`, which say what a page's digest is, and on `item_steps` for a law alone. The
//! layers above write to `Pages`, which is a `Store` and can be parted into its `Page`s, each a
//! `Store` by itself; and they keep a `Snapshot`, which is not written: it has the digest of each page,
//! that of just its items, its text, and the root over the digests. A `PageSet` says which pages of two
//! stores may differ: those in which something may be due (`Snapshot::due_pages`) and those of the keys
//! that commands update.
#![tactic(auto)]

mod branch;
mod group;
mod grouped_pages;
mod groups;
mod kept;
mod laws;
mod layout;
mod number;
mod old;
mod own_pages;
mod page;
mod page_set;
mod pages;
mod record;
mod snapshot;
mod sorted_page;
mod tree;

pub use laws::{parts_are_joined_again, steps_are_on_one_page, steps_leave_other_pages};
pub use layout::Layout;
pub use number::page_of;
pub use page::Page;
pub use page_set::PageSet;
pub use pages::Pages;
pub use snapshot::Snapshot;
pub use token::PAGES;
