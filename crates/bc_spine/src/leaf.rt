use bc_key::Ptr;

/// A leaf of the index, as the nodes above it know it.
#[derive(Clone, Copy, Debug, PartialEq, Eq)]
pub struct LeafRange {
    /// Which leaf it is, for as long as it is one.
    pub number: u32,
    /// The first sector of its range.
    pub from: u64,
    /// The sector behind its range.
    pub end: u64,
    /// Where the leaf stands.
    pub ptr: Ptr,
}
