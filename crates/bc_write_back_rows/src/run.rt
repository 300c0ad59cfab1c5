//! A run over a pair in memory, with one part of leaves that has one slot.
ghost use Rattle.std.specs.Prelude.{◌≡◌, ◌+◌, ◌≤◌, length, IfOk};
ghost use Rattle.bc_alloc.specs.Buckets.{AreFor};
ghost use Rattle.bc_cached.specs.bc_deed.Asked.{size_of};
ghost use Rattle.bc_cached.specs.bc_hand.Seats.{world};
ghost use Rattle.bc_cached.specs.bc_machine.World.{FromEach, cache_among};
ghost use Rattle.bc_cached.specs.declared.run.Ready.{Ready};
ghost use Rattle.bc_disk.specs.Disk.{StandsFor};
ghost use Rattle.bc_disk.specs.Stands.{settled_model};
ghost use Rattle.bc_write_back.specs.bc_request.Asked.{IsIdle};
ghost use Rattle.bc_write_back.specs.bc_place.Place.{HasBefore};

use bc_book::pass::{Pass, Record};
use bc_cache::NodeCache;
use bc_cached::bc_machine::machine::{CoreParts, CoreSeat};
use bc_cached::bc_machine::part::BackingPart;
use bc_cached::run::{Devices, Ready, begin};
use bc_disk::disk::Disk;
use bc_disk::geometry::Geometry;
use bc_disk::modelled::settle;
use bc_loaded::{Loaded, load};
use bc_replay::survey;
use std::alloc::{AllocError, Global};
use std::process::Abort;
use std::test::Fail;

/// A run, its one seat, how many buckets lie before the journal's, and how many sectors the cache
/// device has.
pub(crate) type Begun<C, B> = (CoreParts<C, B>, CoreSeat<C, B>, u32, u64);

// One part with one empty slot.
fn one_slot(alloc: Global, g: &Geometry) -> Result<Vec<NodeCache>, AllocError>
    ensures { IfOk result (λ parts. length parts.items ≡ 1) }
{
    let mut parts = Vec::new(alloc);
    parts.push(NodeCache::new(alloc, g, 1)?)?;
    Ok(parts)
}

/// What a run over a pair is begun with: what was read of the pair.
pub(crate) fn ready<C: Disk + Drop, B: Disk + Drop>(
    rt: &impl Abort,
    alloc: Global,
    mut cache: C,
    mut backing: B,
) -> Result<Ready<C, B>, Fail>
    ensures fit { IfOk result (λ r. AreFor r.reserves r.buckets) }
    ensures one { IfOk result (λ r. length r.leaves.items ≡ 1) }
    ensures cache { IfOk result
        (λ r. StandsFor (C.facts r.cache) (settled_model (C.facts r.cache))) }
    ensures backing { IfOk result (λ r. StandsFor (B.facts r.backing.disk)
        (settled_model (B.facts r.backing.disk))) }
    ensures inside { IfOk result
        (λ r. r.backing.offset + r.backing.size ≤ (B.facts r.backing.disk).sectors) }
    ensures size { IfOk result (λ r. r.backing.size ≡ 1024) }
{
    let s = survey(alloc, &mut cache, &mut backing)?;
    let Loaded {
        tree,
        leaves: _,
        buckets,
        reserves,
        chain,
        walk,
        journal,
    } = load(alloc, &mut cache, &s, 1)?;
    let leaves = one_slot(alloc, &s.supers.geometry)?;
    settle(&mut cache)?;
    settle(&mut backing)?;
    assert!(rt; 1040 <= backing.sectors());
    let backing = BackingPart {
        disk: backing,
        offset: 16,
        size: 1024,
    };
    Ok(Ready {
        tree,
        buckets,
        reserves,
        chain,
        walk,
        journal,
        cache,
        backing,
        leaves,
    })
}

/// A run with one part of leaves, and its one seat, which has 1,024 sectors of data.
pub(crate) fn begun<C: Disk + Drop, B: Disk + Drop>(
    alloc: Global,
    ready: Ready<C, B>,
) -> Result<Begun<C, B>, AllocError>
    requires fit { AreFor ready.reserves ready.buckets }
    requires one { length ready.leaves.items ≡ 1 }
    requires cache { StandsFor (C.facts ready.cache) (settled_model (C.facts ready.cache)) }
    requires backing { StandsFor (B.facts ready.backing.disk)
        (settled_model (B.facts ready.backing.disk)) }
    requires inside { ready.backing.offset + ready.backing.size
        ≤ (B.facts ready.backing.disk).sectors }
    requires size { ready.backing.size ≡ 1024 }
    ensures idle { IfOk result (λ r. IsIdle C.facts B.facts r.0 r.1) }
    ensures all { IfOk result (λ r. (r.1.first ≡ 0) × (r.1.end ≡ r.0.seats)) }
    ensures size { IfOk result (λ r. size_of C.facts B.facts r.1.run.start ≡ 1024) }
    ensures before { IfOk result (λ r. FromEach (world C.facts B.facts r.1) (HasBefore r.2)) }
    ensures sectors { IfOk result
        (λ r. r.3 ≡ (cache_among C.facts B.facts r.0.run.start).sectors) }
{
    let before = u32::from(ready.journal.ring().geometry().first_bucket);
    let sectors = ready.cache.sectors();
    match begin(alloc, ready) {
        Ok((parts, seat)) => Ok((parts, seat, before, sectors)),
        Err(
            Devices {
                cache: _,
                backing: _,
            },
        ) => Err(AllocError),
    }
}

/// From where the cache device was read.
pub(crate) fn reads(alloc: Global, pass: &Pass) -> Result<Vec<u64>, AllocError> {
    let mut reads = Vec::new(alloc);
    for record in &pass.records {
        if let Record::CacheRead {
            seat: _,
            at,
            reading: _,
        } = record
        {
            reads.push(*at)?;
        }
    }
    Ok(reads)
}
