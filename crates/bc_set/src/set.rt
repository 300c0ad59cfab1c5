//! Sets of keys.
ghost use Rattle.std.specs.Prelude.{◌≡◌};

use bc_keys::{Keys, word_count};

/// What the keys of a set are.
#[derive(Clone, Copy, Debug, PartialEq, Eq, Drop)]
pub enum SetKind {
    /// Ranges of sectors and where their data lies, as a leaf has them.
    Extents,
    /// The children of an inner node, each with the end of its range.
    Children,
}

/// A set of keys, as a node is written piece by piece.
///
/// The layout is that of `struct bset` in the kernel's `bcache_ondisk.h`.
#[derive(Drop)]
pub struct Set {
    /// The number that all sets of a node have in common. A set with another one is left from an
    /// earlier use of the bucket.
    pub seq: u64,
    /// The version of the format, 0 or 1: by 1 the checksum starts from a pointer to the node, and
    /// by 0, which is read and never written, from all ones.
    pub version: u32,
    /// The keys, in order.
    pub keys: Keys,
}

/// The newest version of the format.
pub(crate) const VERSION: u32 = 1;

/// How many bytes stand before the words.
pub(crate) const HEADER: usize = 32;

/// What the first word of the cache set's uuid is combined with to the magic of a set.
pub(crate) const MAGIC: u64 = 0x9013_5c78_b99e_07f5;

impl Set {
    ghost use Rattle.bc_set.specs.SetBytes.{bytes_of};

    /// How many bytes the set takes.
    pub fn bytes(&self) -> usize
        ensures { result ≡ bytes_of self.now }
    {
        HEADER + 8 * word_count(self.keys.as_slice())
    }
}
