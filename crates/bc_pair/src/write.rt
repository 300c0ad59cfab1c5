//! The writing of a pair.
//!
//! The superblock of the cache device says that there are records, so it is written behind a barrier
//! behind them: where a crash leaves any of it, they are whole. That of the backing device comes last,
//! since until then the device serves alone.
ghost use Rattle.std.specs.Prelude.{◌≡◌, ◌+◌, ◌*◌, ◌<◌, length, replicate, IfErr, OnOk, OnErr};
ghost use Rattle.bc_image.specs.Formatted.{IsDivided};
ghost use Rattle.bc_image.specs.Sound.{HasSuperblocks};
ghost use Rattle.bc_super.specs.Super.{IsUsable};
ghost use Rattle.bc_super.specs.Cache.{IsUsableCache};
ghost use Rattle.bc_super.specs.Division.{IsGeometryOf};
ghost use Rattle.bc_super.specs.Reading.{OnlyReadsCache};
ghost use Rattle.bc_super.specs.Writing.{AreCounted};
ghost use Rattle.bc_super.specs.declared.backing.BackingSuper.{BackingSuper};
ghost use Rattle.bc_disk.specs.Chain.{sets_in_chain};
ghost use Rattle.bc_pair.specs.Causes.{FaultRose, KeepsOthers};
ghost use Rattle.bc_pair.specs.Found.{IsPair};
ghost use Rattle.bc_pair.specs.Made.{IsMadeCache, IsUnfinished, PairWritten, cache_calls, record_calls};
ghost use Rattle.bc_pair.specs.Records.{AreNew, AreNodes, AreWrites, IsChainOf, IsJournal, IsRecordSector, IsTableAt, Then};
ghost use Rattle.bc_pair.specs.Steps.{HasRoom, NamesBuckets, Wrote};
ghost use Rattle.bc_pair.specs.declared.error.PairError.TheVariants as errors;

use crate::journal::write_journal;
use crate::nodes::write_nodes;
use crate::records::Records;
use bc_disk::disk::{Device, Disk, Failed};
use bc_disk::geometry::Geometry;
use bc_prio::write_chain;
use bc_super::backing::{BackingSuper, write_backing};
use bc_super::cache::{CacheSuper, write_cache};
use bc_super::layout::Layout;
use bc_uuid::write;

// Writes the journal and the chain. The buffer has a bucket of zeros.
fn write_front<C: Disk>(
    cache: &mut C,
    g: &Geometry,
    r: &Records,
    buffer: &mut [u8],
) -> Result<(), Failed>
    requires room { HasRoom g.now (C.facts cache.old).sectors }
    requires new { (b : BackingSuper) × AreNew g.now b r.now }
    requires some { 0 < g.now.journal }
    requires blank { buffer.old ≡ replicate (512 * g.now.bucket) 0 }
    ensures wrote { Wrote (IsRecordSector g.now) (g.now.journal + 1 + sets_in_chain g.now)
        (Then (IsJournal g.now r.now.entry) (IsChainOf g.now r.now.gens.records)) result (C.facts cache.old) (C.facts cache.new) }
    ensures whole { length buffer.new ≡ length buffer.old }
{
    write_journal(cache, g, &r.entry, buffer)?;
    write_chain(cache, g, &r.gens, r.gens.chain(), buffer)
}

// Writes the table and the nodes.
fn write_back<C: Disk>(
    cache: &mut C,
    g: &Geometry,
    l: &Layout,
    r: &Records,
    buffer: &mut [u8],
) -> Result<(), Failed>
    requires names { NamesBuckets l.now g.now }
    requires room { HasRoom g.now (C.facts cache.old).sectors }
    requires new { (b : BackingSuper) × AreNew g.now b r.now }
    requires whole { length buffer.old ≡ 512 * g.now.bucket }
    ensures { Wrote (IsRecordSector g.now) (1 + 2) (Then (IsTableAt g.now r.now.table) (AreNodes g.now r.now)) result (C.facts cache.old) (C.facts cache.new) }
{
    write(&r.table, cache, g, l.uuid, buffer)?;
    write_nodes(cache, g, l, r, buffer)
}

// Writes all records, in their order. The buffer has a bucket of zeros.
fn write_records<C: Disk>(
    cache: &mut C,
    g: &Geometry,
    l: &Layout,
    r: &Records,
    buffer: &mut [u8],
) -> Result<(), Failed>
    requires names { NamesBuckets l.now g.now }
    requires room { HasRoom g.now (C.facts cache.old).sectors }
    requires new { (b : BackingSuper) × AreNew g.now b r.now }
    requires some { 0 < g.now.journal }
    requires blank { buffer.old ≡ replicate (512 * g.now.bucket) 0 }
    ensures { Wrote (IsRecordSector g.now) (record_calls g.now) (AreWrites g.now r.now) result (C.facts cache.old) (C.facts cache.new) }
{
    write_front(cache, g, r, buffer)?;
    write_back(cache, g, l, r, buffer)
}

// Writes the records, and the superblock of the cache device. The buffer has a bucket of zeros.
fn write_cache_device<C: Disk>(
    cache: &mut C,
    g: &Geometry,
    l: &Layout,
    c: &CacheSuper,
    r: &Records,
    buffer: &mut [u8],
) -> Result<(), Failed>
    requires names { NamesBuckets l.now g.now }
    requires room { HasRoom g.now (C.facts cache.old).sectors }
    requires usable { IsUsableCache (C.facts cache.old).sectors c.now }
    requires new { (b : BackingSuper) × AreNew g.now b r.now }
    requires some { 0 < g.now.journal }
    requires blank { buffer.old ≡ replicate (512 * g.now.bucket) 0 }
    ensures ok { OnOk result ((b : BackingSuper) → AreNew g.now b r.now → IsMadeCache g.now c.now b (C.facts cache.old) (C.facts cache.new)) }
    ensures failed { OnErr result ((b : BackingSuper) → AreNew g.now b r.now → IsUnfinished g.now c.now b (C.facts cache.old) (C.facts cache.new)) }
    ensures reads { OnOk result (OnlyReadsCache (C.facts cache.new) c.now) }
    ensures counted { AreCounted (cache_calls g.now) result (C.facts cache.old) (C.facts cache.new) }
{
    write_records(cache, g, l, r, buffer)?;
    cache.barrier()?;
    write_cache(cache, c)
}

/// Writes a pair: the cache device first, then the superblock of the backing device. The buffer has
/// a bucket of zeros. `Err` has the device of which a call failed.
pub(crate) fn write_pair<C: Disk, B: Disk>(
    cache: &mut C,
    backing: &mut B,
    l: &Layout,
    g: &Geometry,
    c: &CacheSuper,
    b: &BackingSuper,
    r: &Records,
    buffer: &mut [u8],
) -> Result<(), Device>
    requires names { NamesBuckets l.now g.now }
    requires room { HasRoom g.now (C.facts cache.old).sectors }
    requires cache { IsUsableCache (C.facts cache.old).sectors c.now }
    requires backing { IsUsable (B.facts backing.old).sectors b.now }
    requires geometry { IsGeometryOf c.now g.now }
    requires divided { IsDivided g.now }
    requires superblocks { HasSuperblocks b.now c.now }
    requires new { AreNew g.now b.now r.now }
    requires blank { buffer.old ≡ replicate (512 * g.now.bucket) 0 }
    ensures written { PairWritten C.facts B.facts g.now c.now b.now result cache.old cache.new backing.old backing.new }
    ensures data { KeepsOthers (B.facts backing.old) (B.facts backing.new) }
    ensures faults { IfErr result (λ d. FaultRose (errors.Fault d) (C.facts cache.old) (C.facts cache.new) (B.facts backing.old) (B.facts backing.new)) }
    ensures found { OnOk result (IsPair g.now c.now b.now (C.facts cache.new) (B.facts backing.new)) }
{
    match write_cache_device(cache, g, l, c, r, buffer) {
        Ok(()) => (),
        Err(Failed) => return Err(Device::Cache),
    }
    match write_backing(backing, b) {
        Ok(()) => Ok(()),
        Err(Failed) => Err(Device::Backing),
    }
}
