//! The lines of a trace.

/// The rounds that a line may ask for.
#[derive(Clone, Copy, Debug, PartialEq, Eq, Drop)]
pub enum Rounds {
    /// Write what is dirty to the backing device.
    Writeback,
    /// Find the buckets in which nothing is alive.
    Tracing,
    /// Move what is alive out of sparse buckets.
    Moving,
}

/// What a line asks for. A range has 1 to 2,048 sectors and begins at a sector of at most 2^40,
/// counted from the data offset of the backing device.
#[derive(Clone, Copy, Debug, PartialEq, Eq, Drop)]
pub enum Action {
    /// Write to each sector of the range the pattern of this stamp, which is at least 1.
    Write { first: u64, count: u32, stamp: u64 },
    /// The same, acknowledged only once it is durable.
    ForcedWrite { first: u64, count: u32, stamp: u64 },
    /// Read the sectors of the range.
    Read { first: u64, count: u32 },
    /// Make all that was written before durable.
    Flush,
    /// Make a round.
    Round(Rounds),
}

/// A line of a trace.
#[derive(Clone, Copy, Debug, PartialEq, Eq, Drop)]
pub enum Line {
    /// A comment, a line without words, or the end of a phase: it asks for nothing and prints nothing.
    Silent,
    /// What a worker, 1 to 16, is asked for. Phases count from 0, and the requests of one are begun
    /// when those of the phases before are answered.
    Request {
        worker: u8,
        phase: u32,
        action: Action,
    },
}
