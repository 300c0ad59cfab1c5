//! What becomes of a write that doesn't come into the index.
ghost use Rattle.std.specs.Prelude.{◌≡◌};
ghost use Rattle.bc_write_back.specs.Claimed.{unstored};

use bc_request::bc_fetch::error::LeafError;
use bc_stored::error::StoreError;

/// What has no room for the keys of a write, or none for its values.
#[derive(Clone, Copy, Debug, PartialEq, Eq, Drop)]
pub enum Lack {
    /// No bucket is open for data, and none may be taken for it.
    Bucket,
    /// Somebody holds the leaf, which is being moved.
    Leaf,
    /// The entry for which keys wait has no room for these, or has no place in the ring then.
    Entry,
    /// The journal has no number left for that entry.
    Number,
}

/// What a write came to.
#[derive(Clone, Copy, Debug, PartialEq, Eq, Drop)]
pub enum Put {
    /// It stands in the history.
    Written,
    /// There was no room for it, and nothing of it is left.
    Lacks(Lack),
}

/// Why values weren't written.
#[derive(Clone, Copy, Debug, PartialEq, Eq, Drop)]
pub enum WriteError {
    /// A step didn't come to an end, or the leaf of the sectors wasn't had.
    Leaf(LeafError),
    /// A place passes the end of the cache device, or what a pointer can say. No sound pair has
    /// such a bucket.
    Place,
}

// What a write comes to whose values weren't stored.
pub(crate) fn unstored(error: StoreError) -> Result<Put, WriteError>
    ensures { result ≡ unstored error }
{
    match error {
        StoreError::Step(error) => Err(WriteError::Leaf(LeafError::Step(error))),
        StoreError::NoBucket => Ok(Put::Lacks(Lack::Bucket)),
        StoreError::Outside => Err(WriteError::Place),
    }
}
