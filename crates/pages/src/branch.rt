//! A branch of the tree over the digests of all pages: the tree over those of one group.

ghost use Rattle.std.specs.Prelude.{◌≡◌, ◌*◌, ◌<◌, ℕ, length, true, false, slice_index_or, [], IfOk, OnOk, OnErr};
ghost use Rattle.pages.specs.Tree.{leaves, branch_root, IsTree, IsAboveSame};
ghost use Rattle.pages.specs.declared.group.TheConstants.{GROUP_PAGES};

use crate::group::GROUP_PAGES;
use std::alloc::{AllocError, Global};
use std::marker::Model;
use std::sync::Arc;
use token::inner_digest;

/// The places of a tree over as many digests as a group has pages. Place 0 is not used.
const NODES: usize = 2 * GROUP_PAGES;

/// A tree over as many digests as a group has pages, kept, so that other digests renew only what is above those that
/// differ.
///
/// Node 1 is the root, and the nodes below node `n` are `2n` and `2n + 1`. The leaves are the last `GROUP_PAGES`.
pub(crate) struct Nodes {
    nodes: [[u8; 32]; NODES],
}

impl Drop for Nodes {
    fn drop(self) {
        let Nodes { nodes: _ } = self;
    }
}

impl Model for Nodes {
    ghost use Rattle.std.specs.Prelude.{ℕ, List};
    ghost use Rattle.pages.specs.Tree.{leaves, IsTree};

    ghost Value = { List (List ℕ) };

    ghost view = { λ a. leaves a.nodes };

    ghost invariant = { λ a. IsTree a.nodes };
}

/// Sets the leaves. The result marks those that differ from the ones before.
fn set_leaves(nodes: &mut [[u8; 32]; NODES], digests: &[[u8; 32]; GROUP_PAGES]) -> [bool; NODES]
    ensures count { length nodes.new ≡ 2 * GROUP_PAGES }
    ensures leaves { leaves nodes.new ≡ digests.now }
    ensures inner { (k : ℕ) → k < GROUP_PAGES → slice_index_or result k false ≡ false }
    ensures same { (k : ℕ) → slice_index_or result k false ≡ false → slice_index_or nodes.new k [] ≡ slice_index_or nodes.old k [] }
{
    let mut changed = [false; NODES];
    for place in 0..GROUP_PAGES {
        if nodes[GROUP_PAGES + place] != digests[place] {
            nodes[GROUP_PAGES + place] = digests[place];
            changed[GROUP_PAGES + place] = true;
        }
    }
    changed
}

/// Makes each inner node new that is above a changed one.
fn renew_above(nodes: &mut [[u8; 32]; NODES], changed: &mut [bool; NODES])
    requires { (k : ℕ) → 0 < k → k < GROUP_PAGES → IsAboveSame nodes.old changed.old k }
    ensures tree { IsTree nodes.new }
    ensures leaves { leaves nodes.new ≡ leaves nodes.old }
{
    for node in (1..GROUP_PAGES).rev() {
        if changed[2 * node] || changed[2 * node + 1] {
            nodes[node] = inner_digest(&nodes[2 * node], &nodes[2 * node + 1]);
            changed[node] = true;
        }
    }
}

/// Whether these are the leaves.
fn are_leaves(nodes: &[[u8; 32]; NODES], digests: &[[u8; 32]; GROUP_PAGES]) -> bool
    ensures { result ≡ true → leaves nodes.now ≡ digests.now }
{
    for place in 0..GROUP_PAGES {
        if nodes[GROUP_PAGES + place] != digests[place] {
            return false;
        }
    }
    true
}

impl Nodes {
    /// The tree over these digests.
    pub(crate) fn new(digests: &[[u8; 32]; GROUP_PAGES]) -> Nodes
        ensures { result ≡ digests.now }
    {
        let mut nodes = [[0u8; 32]; NODES];
        set_leaves(&mut nodes, digests);
        renew_above(&mut nodes, &mut [true; NODES]);
        Nodes { nodes }
    }

    /// Makes it the tree over these digests. Of the nodes above the leaves just those are recomputed that are above a
    /// leaf that differs.
    pub(crate) fn renew(&mut self, digests: &[[u8; 32]; GROUP_PAGES])
        ensures { self.new ≡ digests.now }
    {
        let mut changed = set_leaves(&mut self.nodes, digests);
        renew_above(&mut self.nodes, &mut changed);
    }

    /// Whether it is over these digests.
    fn is_over(&self, digests: &[[u8; 32]; GROUP_PAGES]) -> bool
        ensures { result ≡ true → self.now ≡ digests.now }
    {
        are_leaves(&self.nodes, digests)
    }

    /// The digests that it is over.
    pub(crate) fn leaves(&self) -> [[u8; 32]; GROUP_PAGES]
        ensures { result ≡ self.now }
    {
        let mut digests = [[0u8; 32]; GROUP_PAGES];
        digests.copy_from_slice(&self.nodes[GROUP_PAGES..]);
        digests
    }

    /// The root.
    pub(crate) fn root(&self) -> [u8; 32]
        ensures { result ≡ branch_root self.now }
    {
        self.nodes[1]
    }
}

impl Clone for Nodes {
    ghost is_clone = { λ tree copy. copy ≡ tree };

    fn clone(&self) -> Result<Nodes, AllocError> {
        Ok(Nodes { nodes: self.nodes })
    }
}

/// The tree over the digests of one group, shared with its clones.
pub(crate) struct Branch {
    nodes: Arc<Nodes, Global>,
}

impl Drop for Branch {
    fn drop(self) {
        let Branch { nodes: _ } = self;
    }
}

impl Model for Branch {
    ghost use Rattle.std.specs.Arc.{arc_value};
    ghost use Rattle.std.specs.Prelude.{ℕ, List};

    ghost Value = { List (List ℕ) };

    ghost view = { λ a. arc_value a.nodes };
}

impl Branch {
    /// The branch over these digests. The only error is a failed allocation.
    pub(crate) fn new(
        alloc: Global,
        digests: &[[u8; 32]; GROUP_PAGES],
    ) -> Result<Branch, AllocError>
        ensures { IfOk result (λ branch. branch ≡ digests.now) }
    {
        Ok(Branch {
            nodes: Arc::new(alloc, Nodes::new(digests))?,
        })
    }

    /// Makes it the branch over these digests. If it is shared it is copied first, unless it is over them already. The
    /// only error is a failed allocation, and then nothing has changed.
    pub(crate) fn renew(&mut self, digests: &[[u8; 32]; GROUP_PAGES]) -> Result<(), AllocError>
        ensures ok { OnOk result (self.new ≡ digests.now) }
        ensures err { OnErr result (self.new ≡ self.old) }
    {
        if self.nodes.is_over(digests) {
            return Ok(());
        }
        Arc::make_mut(&mut self.nodes)?.renew(digests);
        Ok(())
    }

    /// The root.
    pub(crate) fn root(&self) -> [u8; 32]
        ensures { result ≡ branch_root self.now }
    {
        self.nodes.root()
    }
}

impl Clone for Branch {
    ghost is_clone = { λ branch copy. copy ≡ branch };

    /// The same branch, shared.
    fn clone(&self) -> Result<Branch, AllocError> {
        Ok(Branch {
            nodes: self.nodes.clone()?,
        })
    }
}
