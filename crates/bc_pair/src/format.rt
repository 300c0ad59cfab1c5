//! A new pair.
ghost use Rattle.std.specs.Prelude.{◌≡◌, ◌≢◌, IfOk, IfErr, OnOk, Err, replicate};
ghost use Rattle.bc_super.specs.Layout.{IsLaidOut};
ghost use Rattle.bc_super.specs.Super.{IsDataOffset};
ghost use Rattle.bc_pair.specs.Causes.{FaultRose, Formats, IsFormatCause, KeepsOthers, UnlessFault};
ghost use Rattle.bc_pair.specs.Found.{FindsNew};
ghost use Rattle.bc_pair.specs.Made.{new_backing, new_cache};
ghost use Rattle.bc_pair.specs.Steps.{RefusesFormat};
ghost use Rattle.bc_pair.specs.declared.error.PairError.TheVariants as errors;

use crate::error::PairError;
use crate::flags::flags_for;
pub use crate::pair::NewPair;
use crate::records::Records;
use crate::write::write_pair;
use bc_disk::disk::{Device, Disk};
use bc_super::backing::BackingSuper;
use bc_super::cache::CacheSuper;
use bc_super::division::geometry_of;
use bc_super::error::SuperError;
use bc_super::flags::SET_UP;
use bc_super::head::DATA_START;
use bc_super::layout::{Layout, lay_out};
use std::alloc::Global;

/// The version of a backing device whose data begins at `DATA_START`.
const FIXED_VERSION: u64 = 1;

/// The version of a backing device that tells where its data begins.
const OFFSET_VERSION: u64 = 4;

// Why no pair is made, and nothing was written.
fn refused(device: Device, why: SuperError) -> Result<Layout, PairError>
    ensures { result ≡ Err (errors.Superblock device why) }
{
    Err(PairError::Superblock { device, why })
}

// How the cache device is to be divided, where the devices have so many sectors.
fn check(cache: u64, backing: u64, pair: &NewPair) -> Result<Layout, PairError>
    ensures laid_out { IfOk result (λ l. IsLaidOut cache l) }
    ensures sizes { IfOk result (λ l. (l.geometry.block ≡ pair.now.block) × (l.geometry.bucket ≡ pair.now.bucket)) }
    ensures fits { OnOk result ((pair.now.set_uuid ≢ replicate 16 0) × IsDataOffset backing pair.now.offset) }
    ensures refused { IfErr result (λ e. RefusesFormat pair.now e cache backing) }
{
    let l = match lay_out(cache, pair.block, pair.bucket) {
        Ok(l) => l,
        Err(why) => return refused(Device::Cache, why),
    };
    if pair.set_uuid == [0; 16] {
        return refused(Device::Cache, SuperError::ZeroUuid);
    }
    if backing < DATA_START {
        return refused(Device::Backing, SuperError::DeviceSmall);
    }
    if pair.offset < DATA_START || backing <= pair.offset {
        return refused(Device::Backing, SuperError::DataOffset);
    }
    Ok(l)
}

// The superblock of a cache device that is divided so. Its victim is the bucket that was used
// longest ago.
fn new_cache(pair: &NewPair, l: &Layout) -> CacheSuper
    ensures { result ≡ new_cache pair.now l.now }
{
    CacheSuper {
        version: 3,
        uuid: pair.cache_uuid,
        set_uuid: pair.set_uuid,
        label: [0; 32],
        flags: SET_UP,
        seq: 0,
        nbuckets: l.geometry.nbuckets,
        block: pair.block,
        bucket: pair.bucket,
        last_mount: 0,
        first_bucket: l.geometry.first_bucket,
        journal: l.geometry.journal,
    }
}

// The superblock of a backing device of this mode, whose data begins where it is to.
fn new_backing(pair: &NewPair) -> BackingSuper
    ensures { result ≡ new_backing pair.now }
{
    BackingSuper {
        version: if pair.offset == DATA_START {
            FIXED_VERSION
        } else {
            OFFSET_VERSION
        },
        uuid: pair.backing_uuid,
        set_uuid: pair.set_uuid,
        label: [0; 32],
        flags: flags_for(pair.mode),
        seq: 0,
        block: pair.block,
        last_mount: 0,
        data_offset: pair.offset,
    }
}

/// Makes a pair of these two devices: the cache device is divided as `lay_out` says and has an empty
/// index; the backing device keeps its data, which begins at the pair's `offset`, and says its mode
/// and that it is clean. The records are written first: the journal with entry 1, the priority sets,
/// the uuid table, the root and its leaf; then the superblock of the cache device, and last that of
/// the backing device, of version 1 where the offset is 16, and else of version 4.
///
/// `Superblock` comes before anything is written, for the first of these that holds: of the cache
/// device `Block`, `Bucket`, `FewBuckets` (fewer than 128) and `ZeroUuid`; of the backing device
/// `DeviceSmall` (fewer than 16 sectors) and `DataOffset` (the offset is below 16, or there is no
/// sector from it on). Nothing is written either where there is no memory for a bucket. After
/// `Fault` what was written stands.
pub fn format<C: Disk, B: Disk>(
    alloc: Global,
    cache: &mut C,
    backing: &mut B,
    pair: &NewPair,
) -> Result<(), PairError>
    ensures written { Formats C.facts B.facts pair.now result cache.old cache.new backing.old backing.new }
    ensures found { OnOk result (FindsNew pair.now (C.facts cache.old).sectors (C.facts cache.new) (B.facts backing.new)) }
    ensures cause { IfErr result (λ e. IsFormatCause pair.now e (C.facts cache.old).sectors (B.facts backing.old).sectors) }
    ensures untouched { IfErr result (λ e. UnlessFault e ((cache.new ≡ cache.old) × (backing.new ≡ backing.old))) }
    ensures data { KeepsOthers (B.facts backing.old) (B.facts backing.new) }
    ensures faults { IfErr result (λ e. FaultRose e (C.facts cache.old) (C.facts cache.new) (B.facts backing.old) (B.facts backing.new)) }
{
    let l = check(cache.sectors(), backing.sectors(), pair)?;
    let mut buffer = vec![in alloc; 0u8; 512 * l.geometry.bucket as usize]?;
    let (c, b) = (new_cache(pair, &l), new_backing(pair));
    let g = geometry_of(&c);
    let records = Records::new(alloc, &g, &l, &b)?;
    Ok(write_pair(cache, backing, &l, &g, &c, &b, &records, &mut buffer)?)
}
