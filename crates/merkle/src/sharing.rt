ghost use Rattle.merkle.specs.Tree.{IsSameTree, IsSameFork};

use crate::fork::{Fork, Tree};
use std::alloc::AllocError;
use std::sync::Arc;

impl<K: Drop, V: Drop> Clone for Tree<K, V> {
    ghost is_clone = { IsSameTree };

    /// The same tree, shared. It takes no memory, and fails only if a node has too many clones to be
    /// counted.
    fn clone(&self) -> Result<Tree<K, V>, AllocError> {
        match self {
            Tree::Empty => Ok(Tree::Empty),
            Tree::Leaf(leaf) => Ok(Tree::Leaf(Arc::try_clone(leaf)?)),
            Tree::Fork(fork) => Ok(Tree::Fork(Arc::try_clone(fork)?)),
        }
    }
}

impl<K: Drop, V: Drop> Clone for Fork<K, V> {
    ghost is_clone = { IsSameFork };

    /// A fork of its own, over the same trees.
    fn clone(&self) -> Result<Fork<K, V>, AllocError> {
        Ok(Fork {
            left: self.left.clone()?,
            right: self.right.clone()?,
            digest: self.digest,
            left_due: self.left_due,
            right_due: self.right_due,
        })
    }
}
