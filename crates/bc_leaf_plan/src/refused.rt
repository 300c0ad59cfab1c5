//! Why a leaf stays as it is.

use bc_alloc::NoBucket;

/// Why nothing of the tree was changed.
#[derive(Clone, Copy, Debug, PartialEq, Eq, Drop)]
pub enum Refused {
    /// There was no memory.
    Memory,
    /// There is no bucket for one of the new nodes.
    NoBucket(NoBucket),
    /// A leaf that would come doesn't fit in a node.
    Large,
    /// A node above has to give way to two, and the root has no room for one more child.
    Above,
    /// No number is left for a new node.
    Number,
    /// A new node would end behind the cache device. No sound pair has such a bucket.
    Outside,
    /// A node above takes a further set: so no new root comes, by which the change would be made.
    BySet,
}
