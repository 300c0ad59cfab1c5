//! What is to be seen in sectors.

/// What is to be seen in a sector's value.
#[derive(Clone, Copy, Debug, PartialEq, Eq, Drop)]
pub enum Kind {
    /// The pattern of this stamp for the sector's own number.
    Pattern(u64),
    /// Zeros alone.
    Zero,
    /// Anything else.
    Raw,
}
