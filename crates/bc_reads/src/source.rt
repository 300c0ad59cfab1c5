//! From where one sector is read.
ghost use Rattle.std.specs.Prelude.{◌≡◌, ◌<◌, ◌≤◌, MatchBool, MatchOption};
ghost use Rattle.bc_key.specs.Key.{Covers};
ghost use Rattle.bc_reads.specs.Reads.{IsLiveAt, IsLost, IsLostBy, IsReadBy, IsReadFrom, said_of};

use bc_bucket::Buckets;
use bc_key::Key;
use bc_node::Leaf;

/// From where a sector is read.
#[derive(Clone, Copy, Debug, PartialEq, Eq)]
pub enum ReadFrom {
    /// From the backing device, which has it.
    Backing,
    /// From this sector of the cache device, which has it alone where it is dirty.
    Cache { at: u64, dirty: bool },
}

// Whether a pointer with this generation to this sector of the cache device is one into a bucket for
// data, of its present generation.
fn is_live(buckets: &Buckets, at: u64, generation: u8) -> bool
    ensures { MatchBool result (IsLiveAt buckets.now at generation)
        (¬ (IsLiveAt buckets.now at generation)) }
{
    let bucket = at / u64::from(buckets.bucket_sectors());
    if bucket < u64::from(buckets.data_from()) {
        return false;
    }
    if buckets.records().len() as u64 <= bucket {
        return false;
    }
    buckets.get(bucket as u32).generation == generation
}

// From where the sector of a key is read.
fn of_key(key: &Key, buckets: &Buckets, sector: u64) -> Option<ReadFrom>
    requires covers { Covers key.now sector }
    ensures { MatchOption result (IsLostBy (said_of key.now sector) buckets.now)
        (IsReadBy (said_of key.now sector) buckets.now) }
{
    if key.count == 0 {
        return Some(ReadFrom::Backing);
    }
    let ptr = key.ptrs[0];
    let at = (ptr.offset + (sector - key.start())) % (1 << 43);
    if is_live(buckets, at, ptr.generation) {
        return Some(ReadFrom::Cache {
            at,
            dirty: key.dirty,
        });
    }
    if key.dirty {
        None
    } else {
        Some(ReadFrom::Backing)
    }
}

/// From where a sector is read, by the leaf's last key of it and the buckets: from the backing
/// device where no key points anywhere, or a clean one into a bucket that was used anew since; and
/// else from the cache device.
///
/// None where a dirty key points into a bucket that was used anew: then the data is nowhere.
pub fn read_from(leaf: &Leaf, buckets: &Buckets, sector: u64) -> Option<ReadFrom>
    ensures { MatchOption result (IsLost leaf.now buckets.now sector)
        (IsReadFrom leaf.now buckets.now sector) }
{
    match leaf.keys().lookup(sector) {
        None => Some(ReadFrom::Backing),
        Some(key) => of_key(&key, buckets, sector),
    }
}
