ghost use Rattle.std.specs.Prelude.{◌≡◌};
ghost use Rattle.merkle.specs.Shape.{earlier as earlier_of, least};
ghost use Rattle.merkle.specs.Tree.{shape, IsCached};
ghost use Rattle.merkle.specs.Alive.{is_above as above};

use crate::fork::Tree;
use crate::key::{TreeKey, TreeValue};

/// Whether a due time is above the moment, or there is none.
pub(crate) fn is_above(moment: u64, due: Option<u64>) -> bool
    ensures { result ≡ above moment due }
{
    match due {
        None => true,
        Some(time) => moment < time,
    }
}

/// The earlier of two moments.
pub(crate) fn earlier(a: Option<u64>, b: Option<u64>) -> Option<u64>
    ensures { result ≡ earlier_of a b }
{
    match a {
        None => b,
        Some(x) => match b {
            None => Some(x),
            Some(y) => Some(x.min(y)),
        },
    }
}

/// The first due time of the entries.
pub(crate) fn due_of<K: TreeKey, V: TreeValue<K>>(tree: &Tree<K, V>) -> Option<u64>
    requires { IsCached K.hash V.text V.due tree.now }
    ensures { result ≡ least V.due (shape tree.now) }
{
    match tree {
        Tree::Empty => None,
        Tree::Leaf(leaf) => leaf.entry.value().due(),
        Tree::Fork(fork) => earlier(fork.left_due, fork.right_due),
    }
}
