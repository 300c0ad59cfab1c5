//! Why values aren't stored.
use bc_insert::bc_hand::error::StepError;

/// Why values weren't put to a place.
#[derive(Clone, Copy, Debug, PartialEq, Eq, Drop)]
pub enum StoreError {
    /// A step didn't come to an end: for its own call, a halt, or want of memory.
    Step(StepError),
    /// No bucket is open for data, and none may be taken for it.
    NoBucket,
    /// The place passes the end of the cache device, or what a pointer can say. No sound pair has
    /// such a bucket.
    Outside,
}
