//! A pair that another tool formatted.
ghost use Rattle.std.specs.Prelude.{◌≡◌, ◌↔◌, ◌*◌, ◌%◌, ◌≤◌, Ok, IfErr, OnOk, IsTrue};
ghost use Rattle.bc_super.specs.Cache.{IsBlock, IsBucket, most_buckets};
ghost use Rattle.bc_super.specs.Layout.{IsLaidOut};
ghost use Rattle.bc_super.specs.Super.{state_number};
ghost use Rattle.bc_pair.specs.Causes.{AdoptLeaves, Adopts, BackingFirst, FaultRose, IsAdoptCause, KeepsOthers};
ghost use Rattle.bc_pair.specs.Found.{FindsAdopted};
ghost use Rattle.bc_pair.specs.Made.{IsUnused, adopted_backing, adopted_cache, version_in_use};

use crate::error::PairError;
use crate::flags::CLEAN;
use crate::read::read_pair;
use crate::records::Records;
use crate::write::write_pair;
use bc_disk::disk::{Device, Disk};
use bc_super::backing::BackingSuper;
use bc_super::cache::CacheSuper;
use bc_super::division::geometry_of;
use bc_super::error::SuperError;
use bc_super::flags::SET_UP;
use bc_super::layout::{Layout, lay_out};
use bc_super::state::BackingState;
use std::alloc::Global;

/// The version of a cache device in use.
const CACHE_VERSION: u64 = 3;

/// The same with feature words, none of which is set.
const FEATURE_VERSION: u64 = 5;

// The version of a cache device in use that had this one.
fn version_in_use(version: u64) -> u64
    ensures { result ≡ version_in_use version }
{
    if version == FEATURE_VERSION {
        FEATURE_VERSION
    } else {
        CACHE_VERSION
    }
}

// Whether no cache was set up for the pair.
fn is_unused(c: &CacheSuper, b: &BackingSuper) -> bool
    ensures { IsTrue result ↔ IsUnused c.now b.now }
{
    !c.is_set_up() && c.journal == 0 && b.state() == BackingState::None
}

// How a cache device is divided that has such a superblock. That passed the tests of `lay_out` when it
// was read.
fn layout_of(c: &CacheSuper) -> Layout
    requires block { IsBlock c.now.block }
    requires bucket { IsBucket c.now.bucket }
    requires fewest { 128 ≤ c.now.nbuckets }
    requires most { c.now.nbuckets ≤ most_buckets c.now.bucket }
    ensures laid_out { IsLaidOut (c.now.bucket * c.now.nbuckets) result }
    ensures sizes { (result.geometry.block ≡ c.now.block) × (result.geometry.bucket ≡ c.now.bucket) }
    ensures nbuckets { result.geometry.nbuckets ≡ c.now.nbuckets }
{
    let sectors = u64::from(c.bucket) * u64::from(c.nbuckets);
    lay_out(sectors, c.block, c.bucket).unwrap()
}

fn adopted_cache(c: &CacheSuper, l: &Layout) -> CacheSuper
    requires { c.now.flags % 2 ≡ 0 }
    ensures { result ≡ adopted_cache c.now l.now }
{
    CacheSuper {
        version: version_in_use(c.version),
        flags: c.flags | SET_UP,
        first_bucket: l.geometry.first_bucket,
        journal: l.geometry.journal,
        ..*c
    }
}

fn adopted_backing(c: &CacheSuper, b: &BackingSuper) -> BackingSuper
    requires { state_number b.now.flags ≡ 0 }
    ensures { result ≡ adopted_backing c.now b.now }
{
    BackingSuper {
        set_uuid: c.set_uuid,
        flags: b.flags | CLEAN,
        ..*b
    }
}

/// Sets up a cache for a pair that another tool formatted and that isn't in use: both superblocks
/// stay as they are but for what says that they are a set, where the journal lies and that the
/// backing device is clean. Its data stays where it is.
///
/// The superblock of the backing device is read first, then that of the cache device.
/// `Superblock` says the first fault of these; then, of the cache device, `Initialised`, where the
/// cache was set up, or has a journal, or the backing device has a state. Then nothing is written,
/// nor where there is no memory for a bucket. After `Fault` what was written stands.
pub fn adopt<C: Disk, B: Disk>(
    alloc: Global,
    cache: &mut C,
    backing: &mut B,
) -> Result<(), PairError>
    ensures written { OnOk result (Adopts C.facts B.facts (Ok tt) cache.old cache.new backing.old backing.new) }
    ensures found { OnOk result (FindsAdopted (C.facts cache.old) (C.facts cache.new) (B.facts backing.old) (B.facts backing.new)) }
    ensures cause { IfErr result (λ e. IsAdoptCause e (C.facts cache.old) (B.facts backing.old)) }
    ensures order { IfErr result (λ e. BackingFirst e cache.old cache.new (B.facts backing.old)) }
    ensures leaves { IfErr result (λ e. AdoptLeaves C.facts B.facts e cache.old cache.new backing.old backing.new) }
    ensures data { KeepsOthers (B.facts backing.old) (B.facts backing.new) }
    ensures faults { IfErr result (λ e. FaultRose e (C.facts cache.old) (C.facts cache.new) (B.facts backing.old) (B.facts backing.new)) }
{
    let (c, b) = read_pair(cache, backing)?;
    if !is_unused(&c, &b) {
        return Err(PairError::Superblock {
            device: Device::Cache,
            why: SuperError::Initialised,
        });
    }
    let l = layout_of(&c);
    let mut buffer = vec![in alloc; 0u8; 512 * l.geometry.bucket as usize]?;
    let (c, b) = (adopted_cache(&c, &l), adopted_backing(&c, &b));
    let g = geometry_of(&c);
    let records = Records::new(alloc, &g, &l, &b)?;
    Ok(write_pair(cache, backing, &l, &g, &c, &b, &records, &mut buffer)?)
}
