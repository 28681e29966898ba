ghost use Rattle.std.specs.Prelude.{◌≡◌, [], true, IfOk, IfSome, IfNone};
ghost use Rattle.sha2.specs.Sha256.{sha256};
ghost use Rattle.merkle.specs.Shape.{fork_text, digest_of, is_none, is_fork, joined};
ghost use Rattle.merkle.specs.Tree.{shape, fork_shape, IsCached, IsForkCached};

use crate::fork::{Fork, Tree};
use crate::key::{TreeKey, TreeValue};
use sha2::{Digest, Sha256};
use std::alloc::AllocError;
use std::sync::Arc;

/// The digest of a tree without keys: that of the empty text.
const EMPTY: [u8; 32] = [
    0xe3, 0xb0, 0xc4, 0x42, 0x98, 0xfc, 0x1c, 0x14, 0x9a, 0xfb, 0xf4, 0xc8, 0x99, 0x6f, 0xb9, 0x24,
    0x27, 0xae, 0x41, 0xe4, 0x64, 0x9b, 0x93, 0x4c, 0xa4, 0x95, 0x99, 0x1b, 0x78, 0x52, 0xb8, 0x55,
];

fn empty_digest() -> [u8; 32]
    ensures { result ≡ sha256 [] }
{
    EMPTY
}

/// The digest of a fork over two sides of these digests, which both have keys.
fn fork_digest(left: &[u8; 32], right: &[u8; 32]) -> [u8; 32]
    ensures { result ≡ sha256 (fork_text left.now right.now) }
{
    let mut hasher = Sha256::new();
    hasher.update(&[1u8]);
    hasher.update(left);
    hasher.update(right);
    hasher.finalize()
}

/// The digest of a fork over two sides of these digests. A side without keys adds nothing.
fn joined_digest(left_empty: bool, right_empty: bool, left: &[u8; 32], right: &[u8; 32]) -> [u8; 32]
    ensures { result ≡ joined left_empty right_empty left.now right.now (sha256 (fork_text left.now right.now)) }
{
    if left_empty {
        *right
    } else if right_empty {
        *left
    } else {
        fork_digest(left, right)
    }
}

pub(crate) fn is_empty<K, V>(tree: &Tree<K, V>) -> bool
    ensures { result ≡ is_none (shape tree.now) }
{
    match tree {
        Tree::Empty => true,
        Tree::Leaf(_) => false,
        Tree::Fork(_) => false,
    }
}

/// The digest of a tree, if it is cached in its root.
pub(crate) fn cached_digest<K: TreeKey, V: TreeValue<K>>(tree: &Tree<K, V>) -> Option<[u8; 32]>
    requires { IsCached K.hash V.text V.due tree.now }
    ensures some { IfSome result (λ digest. digest ≡ digest_of V.text (shape tree.now)) }
    ensures none { IfNone result (is_fork (shape tree.now) ≡ true) }
{
    match tree {
        Tree::Empty => Some(empty_digest()),
        Tree::Leaf(leaf) => Some(leaf.digest),
        Tree::Fork(fork) => fork.digest,
    }
}

/// The digest of a tree. It is cached at each fork that has none; forks that are shared are copied
/// first.
#[cycle(rehash)]
pub fn rehash_at<K: TreeKey + Drop, V: TreeValue<K> + Drop>(
    tree: &mut Tree<K, V>,
) -> Result<[u8; 32], AllocError>
    requires { IsCached K.hash V.text V.due tree.old }
    ensures digest { IfOk result (λ digest. digest ≡ digest_of V.text (shape tree.old)) }
    ensures same { shape tree.new ≡ shape tree.old }
    ensures cached { IsCached K.hash V.text V.due tree.new }
{
    if let Some(digest) = cached_digest(tree) {
        return Ok(digest);
    }
    match tree {
        Tree::Fork(fork) => rehash_fork(Arc::make_mut(fork)?),
        Tree::Empty => unreachable!(),
        Tree::Leaf(_) => unreachable!(),
    }
}

/// The same of a fork.
#[cycle(rehash)]
fn rehash_fork<K: TreeKey + Drop, V: TreeValue<K> + Drop>(
    fork: &mut Fork<K, V>,
) -> Result<[u8; 32], AllocError>
    requires { IsForkCached K.hash V.text V.due fork.old }
    ensures digest { IfOk result (λ digest. digest ≡ digest_of V.text (fork_shape fork.old)) }
    ensures same { fork_shape fork.new ≡ fork_shape fork.old }
    ensures cached { IsForkCached K.hash V.text V.due fork.new }
{
    let left = rehash_at(&mut fork.left)?;
    let right = rehash_at(&mut fork.right)?;
    let left_empty = is_empty(&fork.left);
    let right_empty = is_empty(&fork.right);
    let digest = joined_digest(left_empty, right_empty, &left, &right);
    fork.digest = Some(digest);
    Ok(digest)
}

/// The digest of a tree. This takes no memory, and caches nothing.
pub(crate) fn digest_at<K: TreeKey, V: TreeValue<K>>(tree: &Tree<K, V>) -> [u8; 32]
    requires { IsCached K.hash V.text V.due tree.now }
    ensures { result ≡ digest_of V.text (shape tree.now) }
{
    if let Some(digest) = cached_digest(tree) {
        return digest;
    }
    match tree {
        Tree::Empty => unreachable!(),
        Tree::Leaf(_) => unreachable!(),
        Tree::Fork(fork) => {
            let left = digest_at(&fork.left);
            let right = digest_at(&fork.right);
            joined_digest(is_empty(&fork.left), is_empty(&fork.right), &left, &right)
        }
    }
}
