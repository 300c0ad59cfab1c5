//! How a cache device is divided.
ghost use Rattle.std.specs.Prelude.{◌≡◌, ◌+◌, ◌*◌, ◌<◌, ◌≤◌, IsTrue, min};
ghost use Rattle.bc_disk.specs.Geometry.{is_block, is_bucket};

/// How a cache device is divided into buckets, by its superblock (`struct cache_sb` of the kernel's
/// `bcache.h`). A device that has it has `bucket * nbuckets` sectors at least.
#[derive(Clone, Copy, Debug, PartialEq, Eq, Drop)]
pub struct Geometry {
    /// The sectors of a block: 1, 2, 4 or 8. Journal entries and sets of keys begin at a block.
    pub block: u16,
    /// The sectors of a bucket: a power of two from 64 to 32,768.
    pub bucket: u16,
    /// The number of buckets, from 128 to 1,024 times the sectors of one, and 2^20 at most.
    pub nbuckets: u32,
    /// The first bucket behind the superblock, 1 at least, which is the journal's first one.
    pub first_bucket: u16,
    /// The number of journal buckets.
    pub journal: u16,
    /// What the magic numbers of the set's records are made with.
    pub set_magic: u64,
    /// The sectors of a node of the index: as many as a bucket has, and 512 at most.
    pub node_sectors: u16,
    pub ghost block_is_one: { IsTrue (is_block block) },
    pub ghost bucket_is_one: { IsTrue (is_bucket bucket) },
    pub ghost bucket_from: { 64 ≤ bucket },
    pub ghost bucket_to: { bucket ≤ 32768 },
    pub ghost first_behind_super: { 0 < first_bucket },
    pub ghost buckets_from: { 128 ≤ nbuckets },
    pub ghost buckets_to: { nbuckets ≤ min (1024 * bucket) 1048576 },
    pub ghost journal_within: { first_bucket + journal ≤ nbuckets },
    pub ghost node_is_one: { node_sectors ≡ min bucket 512 },
}
