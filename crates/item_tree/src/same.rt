//! Items and entries that are the same.

ghost use Rattle.std.specs.Prelude.{◌≡◌, ◌↔◌, IsTrue};

use base::Entry;
use items::Item;
use proto::Key;

fn is_same_item(a: &Item, b: &Item) -> bool
    ensures { IsTrue result ↔ (a.now ≡ b.now) }
{
    a.unique == b.unique && a.flags == b.flags && a.due == b.due && a.block == b.block
}

fn is_same_entry(a: &Entry<Key, Item>, b: &Entry<Key, Item>) -> bool
    ensures { IsTrue result ↔ (a.now ≡ b.now) }
{
    a.key() == b.key() && is_same_item(a.value(), b.value())
}

/// Whether the entries are the same.
pub fn are_same(a: &[Entry<Key, Item>], b: &[Entry<Key, Item>]) -> bool
    ensures { IsTrue result ↔ (a.now ≡ b.now) }
{
    if a.len() != b.len() {
        return false;
    }
    for i in 0..a.len() {
        if !is_same_entry(&a[i], &b[i]) {
            return false;
        }
    }
    true
}
