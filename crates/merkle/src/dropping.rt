ghost use Rattle.std.specs.Prelude.{◌≡◌, ◌+◌, ◌≤◌, length, IfSome, IfNone, OnOk, None, MatchOption};
ghost use Rattle.merkle.specs.Shape.{IsTrie, pairs, least};
ghost use Rattle.merkle.specs.Tree.{shape, fork_shape, IsCached, IsForkCached};
ghost use Rattle.merkle.specs.Alive.{IsPartOf, IsLessOf, IsAlive};

use crate::due::{earlier, is_above};
use crate::fork::{Fork, Leaf, Tree};
use crate::key::{TreeKey, TreeValue};
use crate::removing::take_small;
use std::alloc::AllocError;
use std::sync::Arc;

/// How many bytes the key and the value of a leaf have.
pub(crate) fn leaf_bytes<K: TreeKey, V: TreeValue<K>>(leaf: &Leaf<K, V>) -> u64 {
    leaf.entry.value().bytes(leaf.entry.key())
}

/// Drops each entry that is due at the moment or before it, and counts it off `len`, and its bytes off `bytes`. It visits
/// no other entry. If an allocation fails, a part of them may be dropped.
#[cycle(dropping)]
pub(crate) fn drop_at<K: TreeKey + Drop, V: TreeValue<K> + Drop>(
    tree: &mut Tree<K, V>,
    due: &mut Option<u64>,
    len: &mut u64,
    bytes: &mut u64,
    moment: u64,
    depth: u32,
) -> Result<(), AllocError>
    requires trie { IsTrie K.bit K.BITS depth (shape tree.old) }
    requires cached { IsCached K.hash V.text V.due tree.old }
    requires due { due.old ≡ least V.due (shape tree.old) }
    requires len { length (pairs (shape tree.old)) ≤ len.old }
    ensures part { IsPartOf V.due K.bit K.BITS depth moment (shape tree.old) (shape tree.new) }
    ensures ok { OnOk result (IsAlive V.due moment (shape tree.new)) }
    ensures cached { IsCached K.hash V.text V.due tree.new }
    ensures due { due.new ≡ least V.due (shape tree.new) }
    ensures len { len.new + length (pairs (shape tree.old)) ≡ len.old + length (pairs (shape tree.new)) }
{
    if is_above(moment, *due) {
        return Ok(());
    }
    match tree {
        Tree::Empty => Ok(()),
        Tree::Leaf(leaf) => {
            *bytes = bytes.saturating_sub(leaf_bytes(leaf));
            *tree = Tree::Empty;
            *due = None;
            *len -= 1;
            Ok(())
        }
        Tree::Fork(fork) => {
            let (small, done) = drop_fork(Arc::make_mut(fork)?, due, len, bytes, moment, depth);
            if let Some(small) = small {
                *tree = small;
            }
            done
        }
    }
}

/// The same of a fork. If less than two keys are left, they are taken out of it.
#[cycle(dropping)]
fn drop_fork<K: TreeKey + Drop, V: TreeValue<K> + Drop>(
    fork: &mut Fork<K, V>,
    due: &mut Option<u64>,
    len: &mut u64,
    bytes: &mut u64,
    moment: u64,
    depth: u32,
) -> (Option<Tree<K, V>>, Result<(), AllocError>)
    requires trie { IsTrie K.bit K.BITS depth (fork_shape fork.old) }
    requires cached { IsForkCached K.hash V.text V.due fork.old }
    requires len { length (pairs (fork_shape fork.old)) ≤ len.old }
    ensures none { IfNone result.0 (IsPartOf V.due K.bit K.BITS depth moment (fork_shape fork.old) (fork_shape fork.new)) }
    ensures none_cached { IfNone result.0 (IsForkCached K.hash V.text V.due fork.new) }
    ensures none_due { IfNone result.0 (due.new ≡ least V.due (fork_shape fork.new)) }
    ensures none_len { IfNone result.0 (len.new + length (pairs (fork_shape fork.old)) ≡ len.old + length (pairs (fork_shape fork.new))) }
    ensures none_ok { OnOk result.1 (IfNone result.0 (IsAlive V.due moment (fork_shape fork.new))) }
    ensures some { IfSome result.0 (λ small. IsPartOf V.due K.bit K.BITS depth moment (fork_shape fork.old) (shape small)) }
    ensures some_cached { IfSome result.0 (λ small. IsCached K.hash V.text V.due small) }
    ensures some_due { IfSome result.0 (λ small. due.new ≡ least V.due (shape small)) }
    ensures some_len { IfSome result.0 (λ small. len.new + length (pairs (fork_shape fork.old)) ≡ len.old + length (pairs (shape small))) }
    ensures some_ok { OnOk result.1 (IfSome result.0 (λ small. IsAlive V.due moment (shape small))) }
{
    let done = drop_below(fork, len, bytes, moment, depth);
    *due = earlier(fork.left_due, fork.right_due);
    (take_small(fork), done)
}

/// Drops what is due on both sides of a fork, over which less than two keys may be left.
#[cycle(dropping)]
fn drop_below<K: TreeKey + Drop, V: TreeValue<K> + Drop>(
    fork: &mut Fork<K, V>,
    len: &mut u64,
    bytes: &mut u64,
    moment: u64,
    depth: u32,
) -> Result<(), AllocError>
    requires trie { IsTrie K.bit K.BITS depth (fork_shape fork.old) }
    requires cached { IsForkCached K.hash V.text V.due fork.old }
    requires len { length (pairs (fork_shape fork.old)) ≤ len.old }
    ensures part { IsLessOf V.due K.bit K.BITS depth moment (fork_shape fork.old) (shape fork.new.left) (shape fork.new.right) }
    ensures ok { OnOk result (IsAlive V.due moment (fork_shape fork.new)) }
    ensures cached { IsForkCached K.hash V.text V.due fork.new }
    ensures len { len.new + length (pairs (fork_shape fork.old)) ≡ len.old + length (pairs (fork_shape fork.new)) }
{
    fork.digest = None;
    let left = drop_at(
        &mut fork.left,
        &mut fork.left_due,
        len,
        bytes,
        moment,
        depth + 1,
    );
    let right = drop_at(
        &mut fork.right,
        &mut fork.right_due,
        len,
        bytes,
        moment,
        depth + 1,
    );
    left?;
    right
}
