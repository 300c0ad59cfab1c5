//! How a leaf gives way.

/// How a leaf gives way to others.
#[derive(Clone, Copy, Debug, PartialEq, Eq)]
pub enum Way {
    /// One comes in its place, with all its keys in one set.
    Rewrite,
    /// Two come: one of its lower sectors, and one of the higher ones.
    Split,
}
