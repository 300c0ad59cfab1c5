//! The events of a run. Each is one commit by one seat, whose number it carries.
//!
//! Sectors of the backing device count from its data offset; places are sectors of the cache
//! device.
use bc_alloc::Purpose;
use bc_disk::disk::Device;
use bc_flight::claim::Share;
use bc_keys::Keys;
use bc_model::values::Values;

/// A line of a trace: the worker that serves it, from 1 to 16, and its number.
#[derive(Clone, Copy, Debug, PartialEq, Eq, Drop)]
pub struct LineNumber {
    pub worker: u8,
    pub line: u32,
}

/// Why keys come in that change no value.
#[derive(Clone, Copy, Debug, PartialEq, Eq, Drop)]
pub enum Form {
    /// A write around the cache makes what is cached void.
    Drop,
    /// What was dirty is written back.
    Clean,
    /// Data has a new place.
    Move,
    /// The bucket was given up since.
    Stale,
}

/// What a trace round does.
#[derive(Clone, Copy, Debug, PartialEq, Eq, Drop)]
pub enum MarkForm {
    Begin,
    Walk { leaf: u32 },
    End,
    Drop,
}

/// What is let go.
#[derive(Clone, Copy, Debug, PartialEq, Eq, Drop)]
pub enum UnpinKind {
    /// Places that the seat pinned.
    Place { at: u64, count: u32 },
    /// The places of a killed candidate.
    Dead { candidate: u64 },
    /// A bucket that the seat holds; `back` says that it goes back to the list for priority sets.
    Hold { bucket: u32, back: bool },
}

/// A node that doesn't stand yet: its range, its bucket and the word of the pointer to it. Above
/// leaves `height` is 0. Its first set takes so many sectors; zeros are written behind it.
#[derive(Clone, Copy, Debug, PartialEq, Eq, Drop)]
pub struct NewNode {
    pub slot: u32,
    pub first: u64,
    pub end: u64,
    pub bucket: u32,
    pub word: u64,
    pub height: u16,
    pub sectors: u32,
}

/// A change of the tree between two sectors: the leaves and the inner nodes that go, and those that
/// come, by their slots.
#[derive(Drop)]
pub struct Change {
    pub low: u64,
    pub high: u64,
    pub gone: Vec<u32>,
    pub come: Vec<u32>,
    pub old: Vec<u32>,
    pub new: Vec<u32>,
}

/// What a write of the cache device is.
#[derive(Drop)]
pub enum Written {
    /// Values, at places that the seat pinned.
    Data,
    /// The sealed entry of the journal.
    Entry,
    /// A further set of a leaf.
    Set { leaf: u32 },
    /// A further set of an inner node, which makes a change of the tree.
    Parent { inner: u32, change: Change },
    /// The first set of a new leaf, or of a new inner node.
    Leaf { node: NewNode },
    Inner { node: NewNode },
    /// The part of a chain of priority sets.
    Priorities { bucket: u32, part: u32 },
}

/// A call of a device that failed.
#[derive(Drop)]
pub enum Failure {
    Read {
        device: Device,
    },
    Barrier {
        device: Device,
    },
    CacheWrite {
        at: u64,
        what: Written,
        values: Values,
    },
    /// `of` is the line whose write it was to be, or none of a copy of what the cache has.
    BackingWrite {
        first: u64,
        of: Option<LineNumber>,
        values: Values,
    },
}

/// A bucket that was raised, and the list that it goes to, if one has room.
#[derive(Clone, Copy, Debug, PartialEq, Eq, Drop)]
pub struct Listing {
    pub bucket: u32,
    pub list: Option<Purpose>,
}

/// The root that an entry names where it isn't that of the entry before: an inner node by its slot,
/// and the change of the tree that it makes.
#[derive(Drop)]
pub struct NewRoot {
    pub inner: u32,
    pub change: Change,
}

/// The chain that an entry names where it isn't that of the entry before: its buckets, in order.
#[derive(Drop)]
pub struct NewChain {
    pub buckets: Vec<u32>,
}

/// What a seat does.
#[derive(Drop)]
pub enum Deed {
    /// It claims `count` sectors from `first` on.
    Claim {
        first: u64,
        count: u32,
        share: Share,
    },
    /// It lets its claim go.
    Release,
    /// It notes where the sectors of its claim point, in the leaf that they lie in.
    Look {
        leaf: u32,
    },
    /// It pins fresh places of an open bucket, or of one that it holds; `full` says that the bucket
    /// is no longer open.
    Pin {
        at: u64,
        count: u32,
        full: bool,
    },
    /// It lets places or a bucket go.
    Unpin {
        kind: UnpinKind,
    },
    /// It takes a bucket from a list.
    Take {
        purpose: Purpose,
        bucket: u32,
    },
    /// It gives a bucket a new generation.
    Raise {
        bucket: u32,
    },
    /// The chain before the durable one is given up, of which these buckets go back to the list for
    /// priority sets; and raised buckets whose generation is durable go to lists.
    Ready {
        back: Vec<u32>,
        named: Vec<Listing>,
    },
    /// It read the cache device: data of its claim from `first` on, or something that no claim is
    /// of.
    CacheRead {
        at: u64,
        first: Option<u64>,
        values: Values,
    },
    /// It wrote the cache device.
    CacheWrite {
        at: u64,
        what: Written,
        values: Values,
    },
    /// It made a barrier of the cache device.
    CacheBarrier,
    /// It read these values from the backing device.
    BackingRead {
        first: u64,
        values: Values,
    },
    /// It wrote these values there: for a line around the cache, or a copy of what the cache has.
    BackingWrite {
        first: u64,
        of: Option<LineNumber>,
        values: Values,
    },
    /// It made a barrier there.
    BackingBarrier,
    /// It put keys into a leaf that name what it wrote: a write of a line.
    InsertWrite {
        leaf: u32,
        keys: Keys,
        of: LineNumber,
        first: u64,
        values: Values,
    },
    /// It put keys into a leaf that change no value.
    Insert {
        leaf: u32,
        keys: Keys,
        form: Form,
    },
    /// Its places hold what a key may name later.
    Candidate {
        candidate: u64,
        first: u64,
        count: u32,
        at: u64,
    },
    /// The key of a candidate comes into its leaf.
    Settle {
        leaf: u32,
        candidate: u64,
        keys: Keys,
    },
    /// The keys that wait become an entry, in a journal bucket that is begun with it or before.
    /// `rest` is what its record says besides number, root and keys.
    Seal {
        last_seq: u64,
        bucket: Option<u32>,
        rest: Vec<u64>,
        new_root: Option<NewRoot>,
        chain: Option<NewChain>,
    },
    /// The entry is durable.
    Sealed,
    /// A change of the tree is over. The buckets of its new nodes, and those of the old ones.
    Install {
        change: Change,
        come: Vec<u32>,
        gone: Vec<u32>,
    },
    /// It did a step of a trace round.
    Mark {
        form: MarkForm,
    },
    /// It answered a read with these values.
    Answer {
        of: LineNumber,
        first: u64,
        values: Values,
    },
    /// It began a flush.
    FlushFrom {
        of: LineNumber,
    },
    /// It acknowledged that flush.
    FlushDone {
        of: LineNumber,
    },
    /// It acknowledged a forced write.
    Durable {
        of: LineNumber,
        first: u64,
        count: u32,
    },
    /// It began a line, and ended it.
    LineFrom {
        of: LineNumber,
    },
    LineDone {
        of: LineNumber,
    },
    /// A call of a device failed.
    DeviceFault {
        failure: Failure,
    },
}

/// One event: a seat, and what it does.
#[derive(Drop)]
pub struct Event {
    pub seat: u32,
    pub deed: Deed,
}
