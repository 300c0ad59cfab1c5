//! What becomes of the keys of a range, and of a write past them.

use bc_around::past::PastError;
use bc_write_back::bc_fetch::error::LeafError;
use bc_write_back::error::Lack;

/// What came of the keys.
#[derive(Clone, Copy, Debug, PartialEq, Eq, Drop)]
pub enum Invalidated {
    /// Keys without pointers came into the index, for all sectors of the range.
    Gone,
    /// A dirty key stands over one of the sectors, and nothing was done.
    Dirty,
    /// There was no room for the keys, and nothing was done.
    Lacks(Lack),
}

/// What came of a write.
#[derive(Clone, Copy, Debug, PartialEq, Eq, Drop)]
pub enum Bypassed {
    /// It was written to the backing device, and no key stands over it.
    Written,
    /// A dirty key stands over one of the sectors, and nothing was written.
    Dirty,
    /// There was no room for keys without pointers, and nothing was written.
    Lacks(Lack),
    /// Keys were taken away, and others came in behind them. Nothing was written.
    Cached,
    /// Keys came in behind an entry of the journal that was put for the write, and wait for the
    /// next. Nothing was written.
    Waiting,
}

/// Why nothing came of it. What was done before stands.
#[derive(Clone, Copy, Debug, PartialEq, Eq, Drop)]
pub enum BypassError {
    /// The write was stopped, or what has to come before it.
    Past(PastError),
    /// The keys of its sectors weren't taken away, since their leaf wasn't had or a step was
    /// stopped. Nothing was written.
    Keys(LeafError),
}
