//! What differs between two trees, as far as their digests tell.

ghost use Rattle.std.specs.Prelude.{◌≡◌, true, OnOk};
ghost use Rattle.merkle.specs.Shape.{IsTrie};
ghost use Rattle.merkle.specs.Tree.{shape, IsCached};
ghost use Rattle.merkle.specs.Differing.{IsSameDigest, AreTreesAppended};

use crate::fork::Tree;
use crate::hashing::{cached_digest, is_empty};
use crate::key::{TreeKey, TreeValue};
use crate::walking::walk_at;
use base::Entry;
use std::alloc::AllocError;

/// Whether both have keys and the same digest, and it is cached in both.
fn has_same_digest<K: TreeKey, V: TreeValue<K>>(old: &Tree<K, V>, new: &Tree<K, V>) -> bool
    requires old { IsCached K.hash V.text V.due old.now }
    requires new { IsCached K.hash V.text V.due new.now }
    ensures { result ≡ true → IsSameDigest V.text (shape old.now) (shape new.now) }
{
    if is_empty(old) || is_empty(new) {
        return false;
    }
    match (cached_digest(old), cached_digest(new)) {
        (Some(old), Some(new)) => old == new,
        _ => false,
    }
}

/// Appends the entries of the old and of the new tree, at this depth, that may differ. All whose paths
/// begin with the same `front` bits come together or not at all.
pub(crate) fn differ_at<K: TreeKey + Drop, V: TreeValue<K> + Drop>(
    old: &Tree<K, V>,
    new: &Tree<K, V>,
    depth: u32,
    front: u32,
    before: &mut Vec<Entry<K, V>>,
    now: &mut Vec<Entry<K, V>>,
) -> Result<(), AllocError>
    requires old_trie { IsTrie K.bit K.BITS depth (shape old.now) }
    requires new_trie { IsTrie K.bit K.BITS depth (shape new.now) }
    requires old_cached { IsCached K.hash V.text V.due old.now }
    requires new_cached { IsCached K.hash V.text V.due new.now }
    ensures { OnOk result (AreTreesAppended V.text K.bit front (shape old.now) (shape new.now)
        before.old.items before.new.items now.old.items now.new.items) }
{
    if has_same_digest(old, new) {
        return Ok(());
    }
    match (old, new) {
        (Tree::Fork(old), Tree::Fork(new)) if depth < front => {
            differ_at(&old.left, &new.left, depth + 1, front, before, now)?;
            differ_at(&old.right, &new.right, depth + 1, front, before, now)
        }
        _ => {
            walk_at(old, before)?;
            walk_at(new, now)
        }
    }
}
