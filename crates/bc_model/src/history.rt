//! The entries of the one history of a run.
use crate::values::Values;

/// What one entry of the history says. A worker is a number from 1 to 16 and a line the number of a
/// line of the trace; `first` is a sector of the backing device, counted from its data offset.
#[derive(Drop)]
pub enum Entry {
    /// From here on each sector of the range holds the new value.
    Write {
        worker: u8,
        line: u32,
        first: u64,
        values: Values,
    },
    /// The line was answered with these values.
    Read {
        worker: u8,
        line: u32,
        first: u64,
        values: Values,
    },
    /// A flush began: it covers the entries before this one.
    FlushFrom {
        worker: u8,
        line: u32,
    },
    /// That flush was acknowledged.
    FlushDone {
        worker: u8,
        line: u32,
    },
    /// The write of this line whose range begins at `first` was acknowledged as durable, with these
    /// sectors: it is a flush of them alone.
    Durable {
        worker: u8,
        line: u32,
        first: u64,
        count: u32,
    },
    /// A write of the device failed, so that each sector of the range may hold either value.
    Tried {
        first: u64,
        values: Values,
    },
}
