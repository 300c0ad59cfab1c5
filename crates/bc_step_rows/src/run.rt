//! A run over a pair in memory, with one part of leaves that has one slot.
ghost use Rattle.std.specs.Prelude.{◌≡◌, ◌+◌, ◌≤◌, false, length, IfOk};
ghost use Rattle.bc_alloc.specs.Buckets.{AreFor};
ghost use Rattle.bc_cached.specs.declared.run.Ready.{Ready};
ghost use Rattle.bc_disk.specs.Disk.{StandsFor};
ghost use Rattle.bc_disk.specs.Stands.{settled_model};
ghost use Rattle.bc_cached.specs.bc_hand.Seats.{Works, empty, note};
ghost use Rattle.bc_cached.specs.bc_deed.Asked.{size_of};
ghost use Rattle.bc_cached.specs.bc_machine.World.{are_plain};

use bc_alloc::Reserves;
use bc_book::pass::{Pass, Record};
use bc_bucket::{Buckets, Walk};
use bc_cache::NodeCache;
use bc_cached::bc_machine::machine::{CoreParts, CoreSeat};
use bc_cached::bc_machine::part::BackingPart;
use bc_cached::bc_regrow::tree_of;
use bc_cached::run::{Devices, Ready, begin};
use bc_disk::disk::Disk;
use bc_disk::gens::Gens;
use bc_disk::geometry::Geometry;
use bc_disk::modelled::settle;
use bc_journal::{Heads, Journal, Place};
use bc_key::{Key, Ptr};
use bc_replay::survey;
use std::alloc::{AllocError, Global};
use std::process::Abort;
use std::test::Fail;

/// A device of as many buckets.
pub(crate) const GEOMETRY: Geometry = Geometry {
    block: 1,
    bucket: 64,
    nbuckets: 128,
    first_bucket: 1,
    journal: 8,
    set_magic: 1,
    node_sectors: 64,
};

// The buckets of a device, as nobody has used them, and lists with none of them.
fn unused(alloc: Global) -> Result<(Buckets, Reserves), AllocError>
    ensures { IfOk result (λ r. AreFor r.1 r.0) }
{
    let gens = Gens::new(alloc, &GEOMETRY)?;
    let buckets = Buckets::new(alloc, &GEOMETRY, &gens)?;
    let reserves = Reserves::new(alloc, &GEOMETRY, &[])?;
    Ok((buckets, reserves))
}

// What the newest entry names, which no run here reads.
fn heads() -> Heads
    ensures { result.level ≡ 1 }
{
    let pointer = Ptr {
        dev: 0,
        offset: 640,
        generation: 0,
    };
    let key = Key::new(64, 64, false, Some(pointer));
    Heads {
        uuid_bucket: key,
        root: key,
        level: 1,
        prio: 11,
    }
}

// A journal without entries.
fn no_entries(alloc: Global) -> Result<Journal, AllocError> {
    let front = Place {
        bucket: 0,
        sector: 0,
    };
    let newest = [0, 0, 0, 0, 0, 0, 0, 0];
    Journal::new(alloc, &GEOMETRY, front, &newest, 0, 1, &heads())
}

// One part with one empty slot.
fn one_slot(alloc: Global, g: &Geometry) -> Result<Vec<NodeCache>, AllocError>
    ensures { IfOk result (λ parts. length parts.items ≡ 1) }
{
    let mut parts = Vec::new(alloc);
    parts.push(NodeCache::new(alloc, g, 1)?)?;
    Ok(parts)
}

/// What a run over a pair is begun with: the tree is that of the pair.
pub(crate) fn ready<C: Disk + Drop, B: Disk + Drop>(
    rt: &impl Abort,
    alloc: Global,
    mut cache: C,
    mut backing: B,
) -> Result<Ready<C, B>, Fail>
    ensures fit { IfOk result (λ r. AreFor r.reserves r.buckets) }
    ensures one { IfOk result (λ r. length r.leaves.items ≡ 1) }
    ensures cache { IfOk result
        (λ r. StandsFor (C.facts r.cache) (settled_model (C.facts r.cache))) }
    ensures backing { IfOk result (λ r. StandsFor (B.facts r.backing.disk)
        (settled_model (B.facts r.backing.disk))) }
    ensures inside { IfOk result
        (λ r. r.backing.offset + r.backing.size ≤ (B.facts r.backing.disk).sectors) }
    ensures size { IfOk result (λ r. r.backing.size ≡ 1024) }
{
    let s = survey(alloc, &mut cache, &mut backing)?;
    let tree = tree_of(alloc, &mut cache, &s)?;
    let (buckets, reserves) = unused(alloc)?;
    let chain = Vec::new(alloc);
    let walk = Walk::new(alloc, &GEOMETRY)?;
    let journal = no_entries(alloc)?;
    let leaves = one_slot(alloc, &s.supers.geometry)?;
    settle(&mut cache)?;
    settle(&mut backing)?;
    assert!(rt; 1040 <= backing.sectors());
    let backing = BackingPart {
        disk: backing,
        offset: 16,
        size: 1024,
    };
    Ok(Ready {
        tree,
        buckets,
        reserves,
        chain,
        walk,
        journal,
        cache,
        backing,
        leaves,
    })
}

/// A run with one part of leaves, and its one seat.
pub(crate) fn begun<C: Disk + Drop, B: Disk + Drop>(
    alloc: Global,
    ready: Ready<C, B>,
) -> Result<(CoreParts<C, B>, CoreSeat<C, B>), AllocError>
    requires fit { AreFor ready.reserves ready.buckets }
    requires one { length ready.leaves.items ≡ 1 }
    requires cache { StandsFor (C.facts ready.cache) (settled_model (C.facts ready.cache)) }
    requires backing { StandsFor (B.facts ready.backing.disk)
        (settled_model (B.facts ready.backing.disk)) }
    requires inside { ready.backing.offset + ready.backing.size
        ≤ (B.facts ready.backing.disk).sectors }
    ensures works { IfOk result (λ r. Works C.facts B.facts r.0 r.1 empty) }
    ensures cached { IfOk result (λ r. are_plain C.facts B.facts r.0.run.start ≡ false) }
    ensures parts { IfOk result (λ r. length r.0.run.start ≡ 7) }
    ensures all { IfOk result (λ r. (r.1.first ≡ 0) × (r.1.end ≡ r.0.seats)) }
    ensures size { IfOk result
        (λ r. size_of C.facts B.facts r.1.run.start ≡ ready.backing.size) }
    ensures unclaimed { IfOk result (λ r. (note C.facts B.facts r.1).range.count ≡ 0) }
{
    match begin(alloc, ready) {
        Ok(run) => Ok(run),
        Err(
            Devices {
                cache: _,
                backing: _,
            },
        ) => Err(AllocError),
    }
}

/// From where the cache device was read.
pub(crate) fn reads(alloc: Global, pass: &Pass) -> Result<Vec<u64>, AllocError> {
    let mut reads = Vec::new(alloc);
    for record in &pass.records {
        if let Record::CacheRead {
            seat: _,
            at,
            reading: _,
        } = record
        {
            reads.push(*at)?;
        }
    }
    Ok(reads)
}
