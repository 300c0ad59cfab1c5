//! Where a record was found.

/// A record and the sector at which it begins.
#[derive(Clone, Copy, Debug, PartialEq, Eq, Drop)]
pub struct Placed<T> {
    /// The first of the record's sectors.
    pub place: u64,
    /// The record.
    pub item: T,
}
