//! What comes of a piece of a write past the cache.
use bc_flush::bc_fetch::error::LeafError;
use bc_flush::bc_hand::error::StepError;
use bc_flush::error::FlushError;

/// What came of it.
#[derive(Clone, Copy, Debug, PartialEq, Eq, Drop)]
pub enum Past {
    /// It was written to the backing device.
    Written,
    /// A key stands over one of its sectors, so nothing was written: its keys have to go first, or
    /// it has to be written through the cache.
    Cached,
    /// Keys wait for an entry of the journal, so nothing was written.
    Waiting,
}

/// Why nothing came of it. What was done before stands.
#[derive(Clone, Copy, Debug, PartialEq, Eq, Drop)]
pub enum PastError {
    /// It wasn't claimed, for a halt or want of memory. Nothing was done under this claim.
    Claim(StepError),
    /// Its leaf wasn't had, or a halt came before the look. Nothing was written.
    Leaf(LeafError),
    /// The keys that waited weren't made durable. Nothing was written.
    Journal(FlushError),
    /// Its write failed, or the barrier behind one that is forced; or a halt came before one of its
    /// deeds. Where the write failed, each sector reads as before or as the new value.
    Write(StepError),
}
