ghost use Rattle.std.specs.Prelude.{◌≡◌, ◌≢◌, ◌+◌, ◌≤◌, IfOk, IfSome, IfNone, OnOk, OnErr, None, MatchOption};
ghost use Rattle.merkle.specs.Shape.{IsTrie, least};
ghost use Rattle.merkle.specs.Tree.{shape, fork_shape, IsCached, IsForkCached, AreSidesCached, IsSmallOf};
ghost use Rattle.merkle.specs.Remove.{IsRemovedFrom, IsThinned, kind, ties_alone};

use crate::due::due_of;
use crate::fork::{Fork, Tree};
use crate::key::{TreeKey, TreeValue};
use std::alloc::AllocError;
use std::mem;
use std::sync::Arc;

/// 0 for a tree without keys, 1 for a leaf, 2 for a fork.
fn kind_of<K, V>(tree: &Tree<K, V>) -> u8
    ensures result { result ≡ kind (shape tree.now) }
    ensures few { result ≤ 2 }
{
    match tree {
        Tree::Empty => 0,
        Tree::Leaf(_) => 1,
        Tree::Fork(_) => 2,
    }
}

/// What is left of a fork over less than two keys, taken out of it.
pub(crate) fn take_small<K: Drop, V: Drop>(fork: &mut Fork<K, V>) -> Option<Tree<K, V>>
    ensures some { IfSome result (λ small. IsSmallOf small fork.old) }
    ensures none { IfNone result (2 ≤ kind (shape fork.old.left) + kind (shape fork.old.right)) }
    ensures same { IfNone result (fork.new ≡ fork.old) }
{
    let left = kind_of(&fork.left);
    let right = kind_of(&fork.right);
    if left == 1 && right == 0 {
        Some(mem::replace(&mut fork.left, Tree::Empty))
    } else if left == 0 && right <= 1 {
        Some(mem::replace(&mut fork.right, Tree::Empty))
    } else {
        None
    }
}

/// Whether it is a leaf of this key.
fn is_leaf_of<K: TreeKey, V>(tree: &Tree<K, V>, key: &K) -> bool
    ensures { result ≡ ties_alone K.cmp key.now (shape tree.now) }
{
    match tree {
        Tree::Empty => false,
        Tree::Leaf(leaf) => key.cmp(leaf.entry.key()).is_eq(),
        Tree::Fork(_) => false,
    }
}

/// Removes a key from a tree at this depth, and says when the first entry that is left is due. What is
/// shared is copied first.
#[cycle(remove)]
pub(crate) fn remove_at<K: TreeKey + Drop, V: TreeValue<K> + Drop>(
    tree: &mut Tree<K, V>,
    due: &mut Option<u64>,
    key: &K,
    hash: &[u8; 32],
    depth: u32,
) -> Result<(), AllocError>
    requires known { hash.now ≡ K.hash key.now }
    requires trie { IsTrie K.bit K.BITS depth (shape tree.old) }
    requires cached { IsCached K.hash V.text V.due tree.old }
    ensures ok { OnOk result (IsRemovedFrom K.cmp K.bit K.BITS depth key.now (shape tree.old) (shape tree.new)) }
    ensures err { OnErr result (shape tree.new ≡ shape tree.old) }
    ensures cached { IsCached K.hash V.text V.due tree.new }
    ensures due { due.new ≡ least V.due (shape tree.new) }
{
    let done = remove_from(tree, key, hash, depth);
    *due = due_of(tree);
    done
}

/// Removes a key from a tree, as `remove_at`.
#[cycle(remove)]
fn remove_from<K: TreeKey + Drop, V: TreeValue<K> + Drop>(
    tree: &mut Tree<K, V>,
    key: &K,
    hash: &[u8; 32],
    depth: u32,
) -> Result<(), AllocError>
    requires known { hash.now ≡ K.hash key.now }
    requires trie { IsTrie K.bit K.BITS depth (shape tree.old) }
    requires cached { IsCached K.hash V.text V.due tree.old }
    ensures ok { OnOk result (IsRemovedFrom K.cmp K.bit K.BITS depth key.now (shape tree.old) (shape tree.new)) }
    ensures err { OnErr result (shape tree.new ≡ shape tree.old) }
    ensures cached { IsCached K.hash V.text V.due tree.new }
{
    if is_leaf_of(tree, key) {
        *tree = Tree::Empty;
        return Ok(());
    }
    match tree {
        Tree::Empty => Ok(()),
        Tree::Leaf(_) => Ok(()),
        Tree::Fork(fork) => match remove_fork(Arc::make_mut(fork)?, key, hash, depth)? {
            Some(small) => {
                *tree = small;
                Ok(())
            }
            None => Ok(()),
        },
    }
}

/// Removes a key from a fork. If less than two keys are left, they are taken out of it.
#[cycle(remove)]
fn remove_fork<K: TreeKey + Drop, V: TreeValue<K> + Drop>(
    fork: &mut Fork<K, V>,
    key: &K,
    hash: &[u8; 32],
    depth: u32,
) -> Result<Option<Tree<K, V>>, AllocError>
    requires known { hash.now ≡ K.hash key.now }
    requires trie { IsTrie K.bit K.BITS depth (fork_shape fork.old) }
    requires cached { IsForkCached K.hash V.text V.due fork.old }
    ensures none { IfOk result (λ left. IfNone left (IsRemovedFrom K.cmp K.bit K.BITS depth key.now (fork_shape fork.old) (fork_shape fork.new))) }
    ensures some { IfOk result (λ left. IfSome left (λ small. IsRemovedFrom K.cmp K.bit K.BITS depth key.now (fork_shape fork.old) (shape small))) }
    ensures small { IfOk result (λ left. IfSome left (λ small. IsCached K.hash V.text V.due small)) }
    ensures err { OnErr result (fork_shape fork.new ≡ fork_shape fork.old) }
    ensures cached { IfOk result (λ left. IfNone left (IsForkCached K.hash V.text V.due fork.new)) }
    ensures err_cached { OnErr result (IsForkCached K.hash V.text V.due fork.new) }
{
    remove_below(fork, key, hash, depth)?;
    Ok(take_small(fork))
}

/// Removes a key from a fork, over which less than two keys may be left.
#[cycle(remove)]
fn remove_below<K: TreeKey + Drop, V: TreeValue<K> + Drop>(
    fork: &mut Fork<K, V>,
    key: &K,
    hash: &[u8; 32],
    depth: u32,
) -> Result<(), AllocError>
    requires known { hash.now ≡ K.hash key.now }
    requires trie { IsTrie K.bit K.BITS depth (fork_shape fork.old) }
    requires cached { IsForkCached K.hash V.text V.due fork.old }
    ensures ok { OnOk result (IsThinned K.cmp K.bit K.BITS depth key.now (fork_shape fork.old) (shape fork.new.left) (shape fork.new.right)) }
    ensures err { OnErr result (fork_shape fork.new ≡ fork_shape fork.old) }
    ensures cached { IsForkCached K.hash V.text V.due fork.new }
{
    fork.digest = None;
    remove_side(fork, key, hash, depth)
}

/// Removes a key from one side of a fork, whose own digest stays as it is.
#[cycle(remove)]
fn remove_side<K: TreeKey + Drop, V: TreeValue<K> + Drop>(
    fork: &mut Fork<K, V>,
    key: &K,
    hash: &[u8; 32],
    depth: u32,
) -> Result<(), AllocError>
    requires known { hash.now ≡ K.hash key.now }
    requires trie { IsTrie K.bit K.BITS depth (fork_shape fork.old) }
    requires cached { AreSidesCached K.hash V.text V.due fork.old }
    ensures ok { OnOk result (IsThinned K.cmp K.bit K.BITS depth key.now (fork_shape fork.old) (shape fork.new.left) (shape fork.new.right)) }
    ensures err { OnErr result (fork_shape fork.new ≡ fork_shape fork.old) }
    ensures cached { AreSidesCached K.hash V.text V.due fork.new }
    ensures digest { fork.new.digest ≡ fork.old.digest }
{
    if key.bit(hash, depth) {
        remove_at(&mut fork.right, &mut fork.right_due, key, hash, depth + 1)
    } else {
        remove_at(&mut fork.left, &mut fork.left_due, key, hash, depth + 1)
    }
}
