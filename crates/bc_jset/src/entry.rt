//! Entries of the journal.
ghost use Rattle.std.specs.Prelude.{◌≡◌};

use bc_key::Key;
use bc_keys::{Keys, word_count};

/// An entry of the journal.
///
/// The layout is that of `struct jset` in the kernel's `bcache_ondisk.h`.
#[derive(Drop)]
pub struct JEntry {
    /// Its number; each entry's is one above that of the entry before.
    pub seq: u64,
    /// The number of the oldest entry whose keys aren't all in nodes yet.
    pub last_seq: u64,
    /// Where the table of uuids stands. End and size are those of its bucket, in sectors.
    pub uuid_bucket: Key,
    /// Where the root stands. Its size is the node's length in sectors.
    pub root: Key,
    /// How many levels of nodes lie below the root, 1 or 2.
    pub level: u16,
    /// The number of the first priority bucket.
    pub prio: u64,
    /// The extents that were added to the index, oldest first.
    pub keys: Keys,
}

/// The version of the format.
pub(crate) const VERSION: u32 = 1;

/// How many bytes stand before the words.
pub(crate) const HEADER: usize = 240;

/// The most words of keys.
pub(crate) const MOST_WORDS: usize = 4066;

/// What the first word of the cache set's uuid is combined with to the magic of an entry.
pub(crate) const MAGIC: u64 = 0x2452_35c1_a362_5032;

impl JEntry {
    ghost use Rattle.bc_jset.specs.EntryBytes.{bytes_of};

    /// How many bytes the entry takes.
    pub fn bytes(&self) -> usize
        ensures { result ≡ bytes_of self.now }
    {
        HEADER + 8 * word_count(self.keys.as_slice())
    }
}
