ghost use Rattle.std.specs.Prelude.{◌≡◌, ◌<◌, is_some};
ghost use Rattle.std.specs.Option.{option_copied};
ghost use Rattle.std.specs.FinMap.{find};
ghost use Rattle.merkle.specs.Shape.{pairs, IsTrie};
ghost use Rattle.merkle.specs.Tree.{shape};

use crate::fork::Tree;
use crate::key::{TreeKey, TreeValue};

/// The value of a key, at this depth of a tree.
pub(crate) fn find_at<'a, K: TreeKey, V>(
    tree: &'a Tree<K, V>,
    key: &K,
    hash: &[u8; 32],
    depth: u32,
) -> Option<&'a V>
    requires known { hash.now ≡ K.hash key.now }
    requires trie { IsTrie K.bit K.BITS depth (shape tree.now) }
    ensures { option_copied result ≡ find K.cmp key.now (pairs (shape tree.now)) }
{
    match tree {
        Tree::Empty => None,
        Tree::Leaf(leaf) => {
            if key.cmp(leaf.entry.key()).is_eq() {
                Some(leaf.entry.value())
            } else {
                None
            }
        }
        Tree::Fork(fork) => {
            if key.bit(hash, depth) {
                find_at(&fork.right, key, hash, depth + 1)
            } else {
                find_at(&fork.left, key, hash, depth + 1)
            }
        }
    }
}

/// Whether a whole tree has the key, and how many bytes the key and its value have: 0 if it has not.
pub(crate) fn has_key<K: TreeKey, V: TreeValue<K>>(
    tree: &Tree<K, V>,
    key: &K,
    hash: &[u8; 32],
) -> (bool, u64)
    requires known { hash.now ≡ K.hash key.now }
    requires trie { IsTrie K.bit K.BITS 0 (shape tree.now) }
    ensures { result.0 ≡ is_some (find K.cmp key.now (pairs (shape tree.now))) }
{
    match find_at(tree, key, hash, 0) {
        Some(value) => (true, value.bytes(key)),
        None => (false, 0),
    }
}
