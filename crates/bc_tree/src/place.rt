use bc_spine::LeafRange;

/// Where a leaf stands in the tree.
#[derive(Clone, Copy, Debug, PartialEq, Eq)]
pub struct LeafPlace {
    /// The place of its parent among the nodes whose children are leaves.
    pub node: usize,
    /// The place of its key among the parent's children.
    pub child: usize,
    /// Its place among the leaves.
    pub leaf: usize,
    /// The leaf.
    pub range: LeafRange,
}
