//! The events and the history of a run as they are kept: each value once.
ghost use Rattle.std.specs.Prelude.{◌≡◌};

use bc_events::event::{Deed, LineNumber};
use bc_flight::claim::Share;
use bc_keys::Keys;
use bc_model::history::Entry;
use bc_model::values::Values;

/// An event, without what stands at a place of another list of the pass. Fields lie in the order in
/// which they stand here, so that the narrow ones come first.
#[derive(Drop)]
pub enum Record {
    /// Sectors of the backing device are claimed.
    Claim {
        seat: u32,
        first: u64,
        count: u32,
        share: Share,
    },
    /// A claim is let go.
    Release {
        seat: u32,
    },
    /// A leaf is looked at.
    Look {
        seat: u32,
        leaf: u32,
    },
    /// Places of the cache device are pinned.
    Pin {
        full: bool,
        seat: u32,
        at: u64,
        count: u32,
    },
    /// What its entry in the history tells: a line's write of the backing device, an answer, the
    /// begin and the end of a flush, or an acknowledged write.
    Entry {
        seat: u32,
        entry: usize,
    },
    /// A line's write of the backing device failed, which its entry has as tried.
    LineFault {
        seat: u32,
        of: LineNumber,
        entry: usize,
    },
    /// Keys of a line's write come into a leaf.
    Insertion {
        seat: u32,
        insertion: usize,
    },
    /// A read of the cache device.
    CacheRead {
        seat: u32,
        at: u64,
        reading: usize,
    },
    /// A write of data to it.
    CacheWrite {
        seat: u32,
        at: u64,
        values: usize,
    },
    /// A barrier of it.
    CacheBarrier {
        seat: u32,
    },
    /// A read of the backing device.
    BackingRead {
        seat: u32,
        first: u64,
        values: usize,
    },
    /// A write of it that is no line's: a copy of what the cache has.
    BackingCopy {
        seat: u32,
        first: u64,
        values: usize,
    },
    /// A barrier of it.
    BackingBarrier {
        seat: u32,
    },
    /// A line begins.
    LineFrom {
        seat: u32,
        of: LineNumber,
    },
    /// A line ends.
    LineDone {
        seat: u32,
        of: LineNumber,
    },
    /// A rare deed, which is kept whole.
    Other {
        seat: u32,
        deed: usize,
    },
}

// A run keeps one record for each event, so that a byte more is a byte for each of them.
const _: () = prove!(size_of::<Record>() <= 24);

/// What a read of the cache device found, and the sector of which it is data, if of one.
#[derive(Drop)]
pub struct Reading {
    pub first: Option<u64>,
    pub values: Values,
}

/// The keys of a line's write, the leaf that they came into, and the place of the write in the
/// history.
#[derive(Drop)]
pub struct Insertion {
    pub leaf: u32,
    pub keys: Keys,
    pub entry: usize,
}

/// What a run did: its history, and the records of its events.
#[derive(Drop)]
pub struct Pass {
    /// The history, oldest entry first.
    pub entries: Vec<Entry>,
    /// A record for each event, in the order in which they were committed.
    pub records: Vec<Record>,
    /// Values that stand in no entry.
    pub beside: Vec<Values>,
    /// What reads of the cache device found.
    pub readings: Vec<Reading>,
    /// The keys of lines' writes.
    pub insertions: Vec<Insertion>,
    /// Rare deeds.
    pub others: Vec<Deed>,
}

impl Pass {
    /// The history of the run, oldest entry first.
    pub fn entries(&self) -> &[Entry]
        ensures { result.now ≡ self.now.entries.items }
    {
        &self.entries
    }
}
