ghost use Rattle.std.specs.Prelude.{◌≡◌, [], ◌∷◌, List, flat_map, OnOk};
ghost use Rattle.wire.specs.Record.{Puts};
ghost use Rattle.merkle.specs.Shape.{pairs};
ghost use Rattle.merkle.specs.Tree.{shape};
ghost use Rattle.merkle.specs.Walk.{Sees};

use crate::fork::Tree;
use crate::key::{TreeKey, TreeValue};
use base::Entry;
use std::alloc::AllocError;
use wire::Sink;

/// What is shown the entries of a map, one after another: a vector of them, say, or what writes their
/// texts.
pub trait Visitor<K, V> {
    /// The entries that it was shown so far.
    ghost seen: { Self → List (K × V) → Type 0 };

    /// Why it takes no more.
    type Refusal: Drop;

    fn visit(&mut self, entry: &Entry<K, V>) -> Result<(), Self::Refusal>
        ensures { OnOk result (Sees seen (entry.now ∷ []) self.old self.new) };
}

/// Takes the entries, shared.
impl<K: Drop, V: Drop> Visitor<K, V> for Vec<Entry<K, V>> {
    type Refusal = AllocError;

    ghost seen = { λ entries es. entries.items ≡ es };

    fn visit(&mut self, entry: &Entry<K, V>) -> Result<(), AllocError> {
        self.push(entry.clone()?)?;
        Ok(())
    }
}

/// Shows the entries of a tree, in the order of their paths.
pub(crate) fn walk_at<K, V, W: Visitor<K, V>>(
    tree: &Tree<K, V>,
    visitor: &mut W,
) -> Result<(), W::Refusal>
    ensures { OnOk result (Sees W.seen (pairs (shape tree.now)) visitor.old visitor.new) }
{
    match tree {
        Tree::Empty => Ok(()),
        Tree::Leaf(leaf) => visitor.visit(&leaf.entry),
        Tree::Fork(fork) => {
            walk_at(&fork.left, visitor)?;
            walk_at(&fork.right, visitor)
        }
    }
}

/// Writes the texts of the entries of a tree, in the order of their paths.
pub(crate) fn put_texts_at<K: TreeKey, V: TreeValue<K>, S: Sink>(
    tree: &Tree<K, V>,
    sink: &mut S,
) -> Result<(), S::Refusal>
    ensures { OnOk result (Puts S.holds (flat_map (λ e. V.text e.0 e.1) (pairs (shape tree.now))) sink.old sink.new) }
{
    match tree {
        Tree::Empty => Ok(()),
        Tree::Leaf(leaf) => leaf.entry.value().put_text(leaf.entry.key(), sink),
        Tree::Fork(fork) => {
            put_texts_at(&fork.left, sink)?;
            put_texts_at(&fork.right, sink)
        }
    }
}
