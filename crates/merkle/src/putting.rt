ghost use Rattle.std.specs.Prelude.{◌<◌, ◌≡◌, ℕ, false, OnOk, OnErr, IfOk};
ghost use Rattle.std.specs.Ordering.{eq_by_cmp};
ghost use Rattle.merkle.specs.Shape.{pairs, IsTrie, least};
ghost use Rattle.merkle.specs.Tree.{shape, fork_shape, IsLeafCached, IsCached, IsForkCached, AreSidesCached, IsForkOf, IsLeafOf, one_leaf};
ghost use Rattle.merkle.specs.Put.{IsPutInto, IsPrefixed};

use crate::due::due_of;
use crate::fork::{Fork, Leaf, Tree};
use crate::key::{TreeKey, TreeValue};
use std::alloc::{AllocError, Global};
use std::sync::Arc;

/// A fork over these two.
fn join<K: TreeKey + Drop, V: TreeValue<K> + Drop>(
    alloc: Global,
    left: Tree<K, V>,
    right: Tree<K, V>,
) -> Result<Tree<K, V>, AllocError>
    requires left { IsCached K.hash V.text V.due left }
    requires right { IsCached K.hash V.text V.due right }
    ensures { IfOk result (λ tree. IsForkOf K.hash V.text V.due tree left right) }
{
    let left_due = due_of(&left);
    let right_due = due_of(&right);
    Ok(Tree::Fork(Arc::new(
        alloc,
        Fork {
            left,
            right,
            digest: None,
            left_due,
            right_due,
        },
    )?))
}

/// A tree of this leaf, shared.
fn leaf_of<K: TreeKey + Drop, V: TreeValue<K> + Drop>(
    leaf: &Arc<Leaf<K, V>, Global>,
) -> Result<Tree<K, V>, AllocError>
    requires { IsLeafCached K.hash V.text leaf.now.value }
    ensures { IfOk result (λ tree. IsLeafOf K.hash V.text V.due tree leaf.now.value) }
{
    Ok(Tree::Leaf(Arc::try_clone(leaf)?))
}

/// The bit of the leaf's key at this depth.
fn bit_of<K: TreeKey, V>(leaf: &Leaf<K, V>, depth: u32) -> bool
    requires hashed { leaf.now.hash ≡ K.hash leaf.now.entry.0 }
    requires within { depth < K.BITS }
    ensures { result ≡ K.bit leaf.now.entry.0 depth }
{
    leaf.entry.key().bit(&leaf.hash, depth)
}

/// A tree at this depth of two leaves. Their keys differ, and the bits of their paths before this depth
/// do not.
fn two_at<K: TreeKey + Drop, V: TreeValue<K> + Drop>(
    alloc: Global,
    one: &Arc<Leaf<K, V>, Global>,
    other: &Arc<Leaf<K, V>, Global>,
    depth: u32,
) -> Result<Tree<K, V>, AllocError>
    requires one { IsLeafCached K.hash V.text one.now.value }
    requires other { IsLeafCached K.hash V.text other.now.value }
    requires differ { eq_by_cmp K.cmp other.now.value.entry.0 one.now.value.entry.0 ≡ false }
    requires alike { (i : ℕ) → i < depth → K.bit one.now.value.entry.0 i ≡ K.bit other.now.value.entry.0 i }
    ensures put { IfOk result (λ tree. IsPutInto K.cmp K.bit K.BITS depth other.now.value.entry.0 other.now.value.entry.1 (one_leaf one.now.value) (shape tree)) }
    ensures cached { IfOk result (λ tree. IsCached K.hash V.text V.due tree) }
{
    if depth >= K::BITS {
        one.entry.key().known();
        other.entry.key().known();
        unreachable!()
    }
    let first = bit_of(one, depth);
    let second = bit_of(other, depth);
    if first == second {
        let below = two_at(alloc, one, other, depth + 1)?;
        if first {
            join(alloc, Tree::Empty, below)
        } else {
            join(alloc, below, Tree::Empty)
        }
    } else if first {
        join(alloc, leaf_of(other)?, leaf_of(one)?)
    } else {
        join(alloc, leaf_of(one)?, leaf_of(other)?)
    }
}

/// Puts a leaf into a tree at this depth: in place of the one that has its key, or beside the others.
/// It also says when the first entry of the tree is due. What is shared is copied first.
#[cycle(put)]
pub(crate) fn put_at<K: TreeKey + Drop, V: TreeValue<K> + Drop>(
    alloc: Global,
    tree: &mut Tree<K, V>,
    due: &mut Option<u64>,
    leaf: &Arc<Leaf<K, V>, Global>,
    depth: u32,
) -> Result<(), AllocError>
    requires leaf { IsLeafCached K.hash V.text leaf.now.value }
    requires trie { IsTrie K.bit K.BITS depth (shape tree.old) }
    requires prefix { IsPrefixed K.bit leaf.now.value.entry.0 depth (pairs (shape tree.old)) }
    requires cached { IsCached K.hash V.text V.due tree.old }
    ensures ok { OnOk result (IsPutInto K.cmp K.bit K.BITS depth leaf.now.value.entry.0 leaf.now.value.entry.1 (shape tree.old) (shape tree.new)) }
    ensures err { OnErr result (shape tree.new ≡ shape tree.old) }
    ensures cached { IsCached K.hash V.text V.due tree.new }
    ensures due { due.new ≡ least V.due (shape tree.new) }
{
    let done = put_into(alloc, tree, leaf, depth);
    *due = due_of(tree);
    done
}

/// Puts a leaf into a tree, as `put_at`.
#[cycle(put)]
fn put_into<K: TreeKey + Drop, V: TreeValue<K> + Drop>(
    alloc: Global,
    tree: &mut Tree<K, V>,
    leaf: &Arc<Leaf<K, V>, Global>,
    depth: u32,
) -> Result<(), AllocError>
    requires leaf { IsLeafCached K.hash V.text leaf.now.value }
    requires trie { IsTrie K.bit K.BITS depth (shape tree.old) }
    requires prefix { IsPrefixed K.bit leaf.now.value.entry.0 depth (pairs (shape tree.old)) }
    requires cached { IsCached K.hash V.text V.due tree.old }
    ensures ok { OnOk result (IsPutInto K.cmp K.bit K.BITS depth leaf.now.value.entry.0 leaf.now.value.entry.1 (shape tree.old) (shape tree.new)) }
    ensures err { OnErr result (shape tree.new ≡ shape tree.old) }
    ensures cached { IsCached K.hash V.text V.due tree.new }
{
    match tree {
        Tree::Empty => {
            *tree = leaf_of(leaf)?;
            Ok(())
        }
        Tree::Leaf(old) => {
            if leaf.entry.key().cmp(old.entry.key()).is_eq() {
                *tree = leaf_of(leaf)?;
            } else {
                *tree = two_at(alloc, old, leaf, depth)?;
            }
            Ok(())
        }
        Tree::Fork(fork) => put_fork(alloc, Arc::make_mut(fork)?, leaf, depth),
    }
}

/// Puts a leaf into a fork.
#[cycle(put)]
fn put_fork<K: TreeKey + Drop, V: TreeValue<K> + Drop>(
    alloc: Global,
    fork: &mut Fork<K, V>,
    leaf: &Arc<Leaf<K, V>, Global>,
    depth: u32,
) -> Result<(), AllocError>
    requires leaf { IsLeafCached K.hash V.text leaf.now.value }
    requires trie { IsTrie K.bit K.BITS depth (fork_shape fork.old) }
    requires prefix { IsPrefixed K.bit leaf.now.value.entry.0 depth (pairs (fork_shape fork.old)) }
    requires cached { IsForkCached K.hash V.text V.due fork.old }
    ensures ok { OnOk result (IsPutInto K.cmp K.bit K.BITS depth leaf.now.value.entry.0 leaf.now.value.entry.1 (fork_shape fork.old) (fork_shape fork.new)) }
    ensures err { OnErr result (fork_shape fork.new ≡ fork_shape fork.old) }
    ensures cached { IsForkCached K.hash V.text V.due fork.new }
{
    fork.digest = None;
    put_side(alloc, fork, leaf, depth)
}

/// Puts a leaf into one side of a fork, whose own digest stays as it is.
#[cycle(put)]
fn put_side<K: TreeKey + Drop, V: TreeValue<K> + Drop>(
    alloc: Global,
    fork: &mut Fork<K, V>,
    leaf: &Arc<Leaf<K, V>, Global>,
    depth: u32,
) -> Result<(), AllocError>
    requires leaf { IsLeafCached K.hash V.text leaf.now.value }
    requires trie { IsTrie K.bit K.BITS depth (fork_shape fork.old) }
    requires prefix { IsPrefixed K.bit leaf.now.value.entry.0 depth (pairs (fork_shape fork.old)) }
    requires cached { AreSidesCached K.hash V.text V.due fork.old }
    ensures ok { OnOk result (IsPutInto K.cmp K.bit K.BITS depth leaf.now.value.entry.0 leaf.now.value.entry.1 (fork_shape fork.old) (fork_shape fork.new)) }
    ensures err { OnErr result (fork_shape fork.new ≡ fork_shape fork.old) }
    ensures cached { AreSidesCached K.hash V.text V.due fork.new }
    ensures digest { fork.new.digest ≡ fork.old.digest }
{
    if bit_of(leaf, depth) {
        put_at(alloc, &mut fork.right, &mut fork.right_due, leaf, depth + 1)
    } else {
        put_at(alloc, &mut fork.left, &mut fork.left_due, leaf, depth + 1)
    }
}
