//! How a run over a pair with a cache begins, and how it gives the devices back.
ghost use Rattle.std.specs.Prelude.{◌≡◌, ◌+◌, ◌<◌, ◌≤◌, ◌^◌, [], ◌++◌, false, length, map};
ghost use Rattle.std.specs.Prelude.{vec_capacity, IfOk, IfErr};
ghost use Rattle.bc_alloc.specs.Buckets.{AreFor};
ghost use Rattle.bc_book.specs.Pass.{events_in};
ghost use Rattle.bc_disk.specs.Disk.{StandsFor};
ghost use Rattle.bc_disk.specs.Stands.{settled_model};
ghost use Rattle.bc_events.specs.Columns.{entries_of};
ghost use Rattle.bc_begun.specs.Begin.{first_seq, resting};
ghost use Rattle.bc_begun.specs.bc_machine.World.{IsBacking, IsCache, are_plain, opening};
ghost use Rattle.bc_begun.specs.bc_machine.declared.part.CorePart.TheVariants as part;
ghost use Rattle.bc_parts.specs.Machine.{IsRun};
ghost use Rattle.bc_deed.specs.bc_hand.Seats.{core, world};
ghost use Rattle.bc_cached.specs.Begun.{AreUnopened, HasBegun, HasDevices};

use bc_alloc::Reserves;
use bc_begun::bc_machine::machine::{CoreParts, CoreSeat};
use bc_begun::bc_machine::part::{Apart, BackingPart, BucketsPart, CorePart, SpinePart, Tracing};
use bc_book::book::Book;
use bc_book::pass::Pass;
use bc_bucket::{Buckets, Walk};
use bc_cache::NodeCache;
use bc_deed::run::SEATS;
use bc_disk::disk::Disk;
use bc_fill::Fill;
use bc_flight::flight::Flight;
use bc_journal::Journal;
use bc_parts::not_made::NotMade;
use bc_parts::parts::Parts;
use bc_tree::Spine;
use std::alloc::{AllocError, Global};

/// What a run is begun with: the parts of a pair in memory, and both devices.
#[derive(Drop)]
pub struct Ready<C, B> {
    /// The tree, without its leaves' keys.
    pub tree: Spine,
    /// What is known of each bucket.
    pub buckets: Buckets,
    /// The buckets that are ready to be taken.
    pub reserves: Reserves,
    /// The buckets of the chain of priority sets that was read, the first one first.
    pub chain: Vec<u32>,
    /// What a walk that saw no leaf found for each bucket.
    pub walk: Walk,
    /// The journal, behind the entries that were read.
    pub journal: Journal,
    pub cache: C,
    pub backing: BackingPart<B>,
    /// The leaves in memory. Of n such parts, the leaf of number i lies in the one of number i
    /// modulo n.
    pub leaves: Vec<NodeCache>,
}

/// Both devices of a run that could not begin.
#[derive(Drop)]
pub struct Devices<C, B> {
    pub cache: C,
    pub backing: BackingPart<B>,
}

/// What a run leaves: its devices, and what it did.
#[derive(Drop)]
pub struct Ended<C, B> {
    pub cache: C,
    pub backing: BackingPart<B>,
    pub pass: Pass,
}

// Buckets of which none is open for data, of this chain.
fn unopened(buckets: Buckets, reserves: Reserves, chain: Vec<u32>, walk: Walk) -> BucketsPart
    requires { AreFor reserves buckets }
    ensures { AreUnopened buckets reserves chain walk result }
{
    // What the types of both say, holds once they are read.
    let _size = buckets.bucket_sectors();
    let _raised = reserves.raised_len();
    BucketsPart {
        buckets,
        reserves,
        fill: Fill::new(),
        chain,
        renewing: false,
        round: Tracing {
            walk,
            going: false,
            next: 0,
        },
        served: 0,
    }
}

// The tree before any change of it. New nodes get numbers from that of the newest entry on.
fn at_rest(tree: Spine, journal: &Journal) -> SpinePart
    ensures { result ≡ resting tree (first_seq journal.now) }
{
    SpinePart {
        spine: tree,
        next_seq: journal.durable().wrapping_mul(65_536),
        changing: false,
    }
}

// The large parts, each kept apart.
#[derive(Drop)]
struct Large {
    tree: Apart<SpinePart>,
    buckets: Apart<BucketsPart>,
    journal: Apart<Journal>,
}

// Sets the large parts apart. `Err` comes from want of memory.
fn set_apart(
    alloc: Global,
    tree: SpinePart,
    buckets: BucketsPart,
    journal: Journal,
) -> Result<Large, AllocError>
    ensures { IfOk result (λ l. (l.tree ≡ tree) × (l.buckets ≡ buckets) × (l.journal ≡ journal)) }
{
    let tree = Apart::new(alloc, tree)?;
    let buckets = Apart::new(alloc, buckets)?;
    let journal = Apart::new(alloc, journal)?;
    Ok(Large {
        tree,
        buckets,
        journal,
    })
}

// Puts the leaves behind the other parts, for which there is room.
fn add_leaves<C: Drop, B: Drop>(parts: &mut Vec<CorePart<C, B>>, leaves: Vec<NodeCache>)
    requires { length parts.old.items + length leaves.items ≤ vec_capacity parts.old }
    ensures { parts.new.items ≡ parts.old.items ++ map part.Leaves leaves.items }
{
    for cache in leaves {
        parts.push_reserved(CorePart::Leaves(cache));
    }
}

// Both devices among the parts of a run.
fn devices_in<C: Drop, B: Drop>(parts: Vec<CorePart<C, B>>) -> Devices<C, B>
    requires { (cache : C) × (backing : _) × HasDevices parts.items cache backing }
    ensures { HasDevices parts.items result.cache result.backing }
{
    let mut parts = parts;
    parts.truncate(6);
    let Some(CorePart::Backing(backing)) = parts.pop() else {
        unreachable!()
    };
    let Some(CorePart::Cache(cache)) = parts.pop() else {
        unreachable!()
    };
    Devices { cache, backing }
}

/// Begins a run over both devices, of each of which a crash would leave exactly what it holds now.
/// No bucket is open for data yet, no trace round is open, nothing is claimed, and the one seat has
/// all numbers.
///
/// `Err` comes from want of memory alone, and hands both devices back as they were.
pub fn begin<C: Disk + Drop, B: Disk + Drop>(
    alloc: Global,
    ready: Ready<C, B>,
) -> Result<(CoreParts<C, B>, CoreSeat<C, B>), Devices<C, B>>
    requires fit { AreFor ready.reserves ready.buckets }
    requires few { 6 + length ready.leaves.items < 2 ^ 32 }
    requires cache { StandsFor (C.facts ready.cache) (settled_model (C.facts ready.cache)) }
    requires backing { StandsFor (B.facts ready.backing.disk)
        (settled_model (B.facts ready.backing.disk)) }
    requires inside { ready.backing.offset + ready.backing.size
        ≤ (B.facts ready.backing.disk).sectors }
    ensures ok { IfOk result (λ r. HasBegun C.facts B.facts ready r.0 r.1) }
    ensures err { IfErr result (λ d. (d.cache ≡ ready.cache) × (d.backing ≡ ready.backing)) }
{
    let Ready {
        tree,
        buckets,
        reserves,
        chain,
        walk,
        journal,
        cache,
        backing,
        leaves,
    } = ready;
    let Ok(flight) = Flight::new(alloc, SEATS) else {
        return Err(Devices { cache, backing });
    };
    let Ok(mut parts) = Vec::with_capacity(alloc, 6 + leaves.len()) else {
        return Err(Devices { cache, backing });
    };
    let tree = at_rest(tree, &journal);
    let buckets = unopened(buckets, reserves, chain, walk);
    let Ok(large) = set_apart(alloc, tree, buckets, journal) else {
        return Err(Devices { cache, backing });
    };
    parts.push_reserved(CorePart::Spine(large.tree));
    parts.push_reserved(CorePart::Flight(flight));
    parts.push_reserved(CorePart::Buckets(large.buckets));
    parts.push_reserved(CorePart::Journal(large.journal));
    parts.push_reserved(CorePart::Cache(cache));
    parts.push_reserved(CorePart::Backing(backing));
    add_leaves(&mut parts, leaves);
    match Parts::new(alloc, parts, Book::new(alloc), SEATS) {
        Ok(run) => Ok(run),
        Err(NotMade { parts, book: _ }) => Err(devices_in(parts)),
    }
}

/// Ends a run of which the seat has every number, so that no other seat is left. What was in memory
/// is dropped, and each device is as the run left it. It takes no memory.
pub fn end<C: Disk + Drop, B: Disk + Drop>(
    parts: CoreParts<C, B>,
    seat: CoreSeat<C, B>,
) -> Ended<C, B>
    requires run { seat.run ≡ parts.run }
    requires all { (seat.first ≡ 0) × (seat.end ≡ parts.seats) }
    requires idle { seat.parts ≡ [] }
    requires count { 5 < length parts.run.start }
    requires cached { are_plain C.facts B.facts parts.run.start ≡ false }
    ensures run { IsRun (core C.facts B.facts) (opening C.facts B.facts parts.run.start) seat.seen }
    ensures cache { IsCache C.facts B.facts result.cache (world C.facts B.facts seat) }
    ensures backing { IsBacking C.facts B.facts result.backing (world C.facts B.facts seat) }
    ensures events { events_in result.pass ≡ seat.seen }
    ensures history { result.pass.entries.items ≡ entries_of seat.seen }
{
    let (parts, book) = parts.close(seat);
    let Devices { cache, backing } = devices_in(parts);
    Ended {
        cache,
        backing,
        pass: book.into_pass(),
    }
}
