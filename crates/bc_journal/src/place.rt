//! Where an entry stands, and what numbers it has.

/// A place in the journal.
#[derive(Clone, Copy, Debug, PartialEq, Eq, Drop)]
pub struct Place {
    /// Which of the journal's buckets, counted from 0: on the device it is this many behind the
    /// first bucket.
    pub bucket: u32,
    /// How many sectors of the bucket lie before it.
    pub sector: u16,
}

/// The two numbers of an entry.
#[derive(Clone, Copy, Debug, PartialEq, Eq, Drop)]
pub struct Numbers {
    /// Its own.
    pub seq: u64,
    /// That of the oldest entry that was still needed as it was sealed.
    pub last_seq: u64,
}
