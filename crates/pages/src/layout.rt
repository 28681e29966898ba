/// How the items of a page are kept, and so of what its digest is.
#[derive(Clone, Copy, Debug, PartialEq, Eq)]
pub enum Layout {
    /// In the order of their keys. The digest is that of the page's text.
    Sorted,
    /// In a Merkle tree over the paths of their keys. The digest is that of the tree.
    Tree,
}
