//! How a refill ends.

use bc_alloc::NoBucket;

/// How a refill ends that no device stopped.
#[derive(Clone, Copy, Debug, PartialEq, Eq, Drop)]
pub enum Refilled {
    /// The raised buckets are on the lists, as far as these have room, and the new chain is
    /// durable.
    Done,
    /// No raised bucket waits, and none would be raised: the lists are full, or no bucket may be
    /// given up. Nothing was done.
    Nothing,
    /// There is no bucket for one of the chain's sets. Those that were taken for the others are let
    /// go again, and nothing else was done.
    NoBucket(NoBucket),
    /// No number is left for the chain's entry: they end at 2^63. Nothing was done.
    NoNumber,
    /// The journal's ring has no place for the chain's entry. Nothing was done.
    NoPlace,
    /// Another entry or another chain was sealed and came no further, as a halt leaves it. Nothing
    /// was done.
    Cut,
    /// What is in memory is of no sound pair. Nothing was done, or buckets were taken and let go
    /// again.
    Unsound,
}
