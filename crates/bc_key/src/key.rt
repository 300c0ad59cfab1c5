ghost use Rattle.std.specs.Prelude.{◌≡◌, length, ◌+◌, ◌<◌, ◌≤◌, ◌^◌, ◌↔◌, IsTrue, is_some, if◌then◌else◌};
ghost use Rattle.bc_key.specs.Ptr.{IsZeroFrom};

use crate::ptr::Ptr;

/// A range of sectors and where its data lies; in an inner node of the index, a child node.
///
/// The bit ranges of the fields are those of `struct bkey` in the kernel's `bcache_ondisk.h`.
#[derive(Clone, Copy, Debug, PartialEq, Eq)]
pub struct Key {
    /// Which backing device the sectors are of, below 2^20.
    pub inode: u32,
    /// The sector behind the last one.
    pub end: u64,
    /// The number of sectors; of a child node, the node's length.
    pub size: u16,
    /// Whether the backing device lacks the data.
    pub dirty: bool,
    /// The kind of data checksum, below 4.
    pub csum: u8,
    /// The number of pointers, at most 6.
    pub count: u8,
    /// The pointers, and zero pointers in the places behind them.
    pub ptrs: [Ptr; 6],
    pub ghost inode_fits: { inode < 2 ^ 20 },
    pub ghost end_fits: { end < 2 ^ 64 },
    pub ghost size_fits: { size < 2 ^ 16 },
    pub ghost csum_fits: { csum < 4 },
    pub ghost count_fits: { count ≤ 6 },
    pub ghost six_places: { length ptrs ≡ 6 },
    pub ghost no_more_ptrs: { IsZeroFrom count ptrs },
}

impl Key {
    ghost use Rattle.bc_key.specs.Key.{start_of, Covers, pointer_of, place_at};

    /// A key of inode 0 without a data checksum, and with one pointer at most.
    pub fn new(end: u64, size: u16, dirty: bool, pointer: Option<Ptr>) -> Key
        ensures inode { result.inode ≡ 0 }
        ensures end { result.end ≡ end }
        ensures size { result.size ≡ size }
        ensures dirty { result.dirty ≡ dirty }
        ensures csum { result.csum ≡ 0 }
        ensures count { result.count ≡ (if is_some pointer then 1 else 0) }
        ensures pointer { pointer_of result ≡ pointer }
    {
        let mut ptrs = [Ptr::ZERO; 6];
        let mut count = 0;
        if let Some(ptr) = pointer {
            ptrs[0] = ptr;
            count = 1;
        }
        Key {
            inode: 0,
            end,
            size,
            dirty,
            csum: 0,
            count,
            ptrs,
        }
    }

    /// The first sector of the range; 0 where the size is above the end.
    pub fn start(&self) -> u64
        ensures { result ≡ start_of self.now }
    {
        self.end.saturating_sub(u64::from(self.size))
    }

    /// Whether the sector lies in the range.
    pub fn covers(&self, sector: u64) -> bool
        ensures { IsTrue result ↔ Covers self.now sector }
    {
        self.start() <= sector && sector < self.end
    }

    /// Where a sector of the range lies on the cache device, by the first pointer. Places count
    /// modulo 2^43.
    pub fn place(&self, sector: u64) -> u64
        requires held { 0 < self.now.count }
        requires covered { Covers self.now sector }
        ensures { result ≡ place_at self.now 0 sector }
    {
        (self.ptrs[0].offset + (sector - self.start())) % (1 << 43)
    }

    /// The first pointer, which is the one that counts.
    pub fn pointer(&self) -> Option<Ptr>
        ensures { result ≡ pointer_of self.now }
    {
        if self.count > 0 {
            Some(self.ptrs[0])
        } else {
            None
        }
    }
}
