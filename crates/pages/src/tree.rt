ghost use Rattle.std.specs.Prelude.{◌≡◌, ◌≢◌, ◌*◌, ◌<◌, ℕ, length, map as map_list, take, drop, slice_index_or, [], IfOk, OnOk, OnErr};
ghost use Rattle.std.specs.Arc.{arc_value};
ghost use Rattle.token.specs.declared.tree.TheConstants.{HEIGHT};
ghost use Rattle.token.specs.Digest.{root_of};
ghost use Rattle.pages.specs.Page.{page_count};
ghost use Rattle.pages.specs.Group.{page_in_group, AreLong};
ghost use Rattle.pages.specs.Tree.{leaves_of, branch_root, AreBranches};
ghost use Rattle.pages.specs.declared.group.TheConstants.{GROUPS, GROUP_PAGES};

use crate::branch::{Branch, Nodes};
use crate::group::{GROUP_PAGES, GROUPS};
use std::alloc::{AllocError, Global};
use std::marker::Model;
use std::sync::Arc;
use token::PAGES;

/// The tree over the digests of all pages, kept, so that other digests renew only what is above those that differ.
///
/// It has a branch over the digests of each group of pages, and a top over the roots of the branches. Branches are shared
/// with clones: digests of one group renew one branch and the top.
pub(crate) struct Tree {
    branches: Vec<Branch>,
    top: Nodes,
    /// Whether the top is over the roots of the branches. While branches are renewed it is not.
    is_right: bool,
}

impl Drop for Tree {
    fn drop(self) {
        let Tree {
            branches: _,
            top: _,
            is_right: _,
        } = self;
    }
}

impl Model for Tree {
    ghost use Rattle.std.specs.Prelude.{ℕ, List};
    ghost use Rattle.pages.specs.Tree.{leaves_of, AreBranches};

    ghost Value = { List (List ℕ) };

    ghost view = { λ a. leaves_of a.branches.items };

    ghost invariant = { λ a. AreBranches a.branches.items a.top a.is_right };
}

/// Of the digests of all pages those of one group.
fn of_group(digests: &[[u8; 32]; PAGES], group: usize) -> [[u8; 32]; GROUP_PAGES]
    requires { group < GROUPS }
    ensures { result ≡ take GROUP_PAGES (drop (GROUP_PAGES * group) digests.now) }
{
    let first = group * GROUP_PAGES;
    let mut own = [[0u8; 32]; GROUP_PAGES];
    own.copy_from_slice(&digests[first..first + GROUP_PAGES]);
    own
}

/// The branches over these digests. The only error is a failed allocation.
fn branches_over(alloc: Global, digests: &[[u8; 32]; PAGES]) -> Result<Vec<Branch>, AllocError>
    ensures leaves { IfOk result (λ branches. leaves_of branches.items ≡ digests.now) }
    ensures count { IfOk result (λ branches. length branches.items ≡ GROUPS) }
    ensures long { IfOk result (λ branches. AreLong branches.items) }
{
    let mut branches = Vec::with_capacity(alloc, GROUPS)?;
    for group in 0..GROUPS {
        branches.push(Branch::new(alloc, &of_group(digests, group))?)?;
    }
    Ok(branches)
}

/// The roots of all branches.
fn roots_of(branches: &Vec<Branch>) -> [[u8; 32]; GROUPS]
    requires { length branches.now.items ≡ GROUPS }
    ensures { result ≡ map_list branch_root branches.now.items }
{
    let mut roots = [[0u8; 32]; GROUPS];
    for group in 0..GROUPS {
        roots[group] = branches[group].root();
    }
    roots
}

impl Tree {
    /// The tree over these digests. The only error is a failed allocation.
    pub(crate) fn new(alloc: Global, digests: &[[u8; 32]; PAGES]) -> Result<Tree, AllocError>
        ensures { IfOk result (λ tree. tree ≡ digests.now) }
    {
        let branches = branches_over(alloc, digests)?;
        let top = Nodes::new(&roots_of(&branches));
        Ok(Tree {
            branches,
            top,
            is_right: true,
        })
    }

    /// Makes it the tree over these digests of one group, and over the others as they are. Of the nodes just those are
    /// recomputed that are above a digest that differs, and of a tree that is shared with clones nothing is copied but
    /// the branch of the group. `renew_top` comes after it. The only error is a failed allocation, and then nothing has
    /// changed.
    pub(crate) fn renew_group(
        &mut self,
        group: usize,
        digests: &[[u8; 32]; GROUP_PAGES],
    ) -> Result<(), AllocError>
        requires { group < GROUPS }
        ensures count { OnOk result (length self.new ≡ page_count) }
        ensures own { OnOk result ((i : ℕ) → i < GROUP_PAGES → slice_index_or self.new (page_in_group group i) [] ≡ slice_index_or digests.now i []) }
        ensures others { OnOk result ((g i : ℕ) → g ≢ group → i < GROUP_PAGES
            → slice_index_or self.new (page_in_group g i) [] ≡ slice_index_or self.old (page_in_group g i) []) }
        ensures err { OnErr result (self.new ≡ self.old) }
    {
        let branch = &mut self.branches[group];
        branch.renew(digests)?;
        self.is_right = false;
        Ok(())
    }

    /// Makes the top right, once all branches are renewed.
    pub(crate) fn renew_top(&mut self)
        ensures { self.new ≡ self.old }
    {
        if !self.is_right {
            self.top.renew(&roots_of(&self.branches));
            self.is_right = true;
        }
    }

    /// Makes it the tree over these digests, group by group. The only error is a failed allocation.
    fn renew(&mut self, digests: &[[u8; 32]; PAGES]) -> Result<(), AllocError>
        ensures { OnOk result (self.new ≡ digests.now) }
    {
        for group in 0..GROUPS {
            self.renew_group(group, &of_group(digests, group))?;
        }
        self.renew_top();
        Ok(())
    }

    /// The root.
    pub(crate) fn root(&self) -> [u8; 32]
        ensures { result ≡ root_of HEIGHT self.now }
    {
        if self.is_right {
            self.top.root()
        } else {
            Nodes::new(&roots_of(&self.branches)).root()
        }
    }
}

impl Clone for Tree {
    ghost is_clone = { λ tree copy. copy ≡ tree };

    /// The same tree. Branches are shared.
    fn clone(&self) -> Result<Tree, AllocError> {
        Ok(Tree {
            branches: self.branches.clone()?,
            top: self.top.clone()?,
            is_right: self.is_right,
        })
    }
}

/// The tree over these digests, made of another one. Nodes that are the same in both are not hashed. The only error
/// is a failed allocation.
pub(crate) fn renewed(
    tree: Arc<Tree, Global>,
    digests: &[[u8; 32]; PAGES],
) -> Result<Arc<Tree, Global>, AllocError>
    ensures { IfOk result (λ tree. arc_value tree ≡ digests.now) }
{
    let mut tree = tree;
    Arc::make_mut(&mut tree)?.renew(digests)?;
    Ok(tree)
}
