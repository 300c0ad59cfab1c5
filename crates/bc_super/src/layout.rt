//! How a cache device is divided into buckets.
ghost use Rattle.std.specs.Prelude.{◌≡◌, ◌↔◌, ◌≤◌, IsTrue, IfOk, IfErr};
ghost use Rattle.bc_super.specs.Cache.{IsBlock, IsBucket, most_buckets};
ghost use Rattle.bc_super.specs.Layout.{IsLaidOut, IsLayoutRefused, buckets_of, per_set};

use crate::error::SuperError;
use bc_disk::geometry::Geometry;

/// Where a cache device that is being set up has what isn't data: behind the sectors set aside the
/// journal, the priority sets, the uuid table, the root and one leaf, each from a bucket of its own
/// on.
#[derive(Clone, Copy, Debug, PartialEq, Eq, Drop)]
pub struct Layout {
    /// The sectors and buckets. Its `set_magic` is 0, since the set isn't known here.
    pub geometry: Geometry,
    /// How many priority sets it takes to hold all buckets; each has a bucket.
    pub p: u32,
    /// The bucket of the first priority set.
    pub prio: u32,
    /// The bucket of the uuid table.
    pub uuid: u32,
    /// The bucket of the root.
    pub root: u32,
    /// The bucket of the leaf.
    pub leaf: u32,
}

/// The fewest buckets that a cache device may have.
pub(crate) const FEWEST_BUCKETS: u64 = 128;

/// The most buckets that a cache device may have.
pub(crate) const MOST_BUCKETS: u64 = 1_048_576;

/// Whether a block may have so many sectors.
pub(crate) fn is_block(block: u16) -> bool
    ensures { IsTrue result ↔ IsBlock block }
{
    matches!(block, 1 | 2 | 4 | 8)
}

/// Whether a bucket may have so many sectors.
pub(crate) fn is_bucket(bucket: u16) -> bool
    ensures { IsTrue result ↔ IsBucket bucket }
{
    matches!(
        bucket,
        64 | 128 | 256 | 512 | 1024 | 2048 | 4096 | 8192 | 16384 | 32768
    )
}

/// The most buckets that a device may have, by the sectors of one.
pub(crate) fn most_buckets(bucket: u16) -> u64
    ensures { result ≡ most_buckets bucket }
{
    (1024 * u64::from(bucket)).min(MOST_BUCKETS)
}

// How many buckets a device of so many sectors is divided into.
fn nbuckets_of(sectors: u64, bucket: u16) -> u64
    requires { IsBucket bucket }
    ensures { result ≡ buckets_of sectors bucket }
{
    (sectors / u64::from(bucket)).min(most_buckets(bucket))
}

// How many buckets a priority set tells of. It has 40 bytes and then 3 for each bucket.
fn buckets_in_set(bucket: u16) -> u64
    requires { IsBucket bucket }
    ensures { result ≡ per_set bucket }
{
    (512 * u64::from(bucket) - 40) / 3
}

/// How a cache device with so many sectors is divided, with blocks and buckets of so many. It has
/// as many buckets as it has room for, but no more than 1,024 times the sectors of one, and no more
/// than 1,048,576. The journal has one of each 128 buckets, but at least 8 and at most 256. Takes no
/// memory.
///
/// The error is the first of these that holds: `Block`; `Bucket`; `FewBuckets`.
pub fn lay_out(sectors: u64, block: u16, bucket: u16) -> Result<Layout, SuperError>
    ensures sizes { IfOk result (λ l. (l.geometry.block ≡ block) × (l.geometry.bucket ≡ bucket)) }
    ensures ok { IfOk result (λ l. IsLaidOut sectors l) }
    ensures refused { IfErr result (λ e. IsLayoutRefused sectors block bucket e) }
{
    if !is_block(block) {
        return Err(SuperError::Block);
    }
    if !is_bucket(bucket) {
        return Err(SuperError::Bucket);
    }
    let nbuckets = nbuckets_of(sectors, bucket);
    if nbuckets < FEWEST_BUCKETS {
        return Err(SuperError::FewBuckets);
    }
    let first_bucket = 23 / bucket + 1;
    let journal = (nbuckets / 128).min(256).max(8);
    let p = (nbuckets - 1) / buckets_in_set(bucket) + 1;
    let prio = u64::from(first_bucket) + journal;
    Ok(Layout {
        geometry: Geometry {
            block,
            bucket,
            nbuckets: nbuckets as u32,
            first_bucket,
            journal: journal as u16,
            set_magic: 0,
            node_sectors: bucket.min(512),
        },
        p: p as u32,
        prio: prio as u32,
        uuid: (prio + p) as u32,
        root: (prio + p) as u32 + 1,
        leaf: (prio + p) as u32 + 2,
    })
}
