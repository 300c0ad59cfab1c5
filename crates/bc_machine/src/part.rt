//! The parts in which the running state is held.
ghost use Rattle.std.specs.Prelude.{◌≡◌, ◌+◌, ◌<◌, ◌^◌, MatchResult};
ghost use Rattle.bc_alloc.specs.Buckets.{AreFor};
ghost use Rattle.bc_alloc.specs.Reserves.{IsInOrder};
ghost use Rattle.bc_fill.specs.Fill.{AreOpen};

use bc_alloc::Reserves;
use bc_bucket::{Buckets, Walk};
use bc_cache::NodeCache;
use bc_fill::Fill;
use bc_flight::flight::Flight;
use bc_journal::Journal;
use bc_tree::Spine;
use std::alloc::{AllocFailed, Global};
use std::marker::Model;

/// The number of the part with the inner nodes and the ranges of leaves.
pub const SPINE: u32 = 0;

/// The number of the part with claims and candidates.
pub const FLIGHT: u32 = 1;

/// The number of the part with the buckets.
pub const BUCKETS: u32 = 2;

/// The number of the part with the journal.
pub const JOURNAL: u32 = 3;

/// The number of the part with the cache device.
pub const CACHE: u32 = 4;

/// The number of the part with the backing device.
pub const BACKING: u32 = 5;

/// The number of the first part with leaves. Of n such parts, the leaf of number i lies in the part
/// i modulo n behind it.
pub const LEAVES: u32 = 6;

/// The tree in memory, the number that the sets of the next new node get, and whether a change of
/// the tree is under way.
#[derive(Drop)]
pub struct SpinePart {
    pub spine: Spine,
    pub next_seq: u64,
    /// Who changes the tree sets it before the first new node is written, and takes it back once the
    /// change is over. Who finds it set knows that the run was halted in between.
    pub changing: bool,
}

/// The backing device, with its data: `size` sectors from the sector `offset` on.
#[derive(Drop)]
pub struct BackingPart<B> {
    pub disk: B,
    pub offset: u64,
    pub size: u64,
    pub ghost fits: { offset + size < 2 ^ 64 },
}

/// A trace round: a walk over the leaves in the order of their sectors, at whose end the buckets get
/// what it found. It lies with the buckets, so that whoever has these in hand may go on with it.
#[derive(Drop)]
pub struct Tracing {
    /// What the walk found for each bucket. It stays once the round is over, until one begins.
    pub walk: Walk,
    /// Whether a round is open.
    pub going: bool,
    /// The leaves of the sectors below this one were walked, and no leaf of another sector was.
    pub next: u64,
}

/// What is known of each bucket, the buckets that are ready to be taken, and those that are open for
/// data.
#[derive(Drop)]
pub struct BucketsPart {
    pub buckets: Buckets,
    pub reserves: Reserves,
    pub fill: Fill,
    /// The chain of priority sets that was made ready last: its buckets, the first one first. They
    /// go back to their list once the next one is ready.
    pub chain: Vec<u32>,
    /// Who seals an entry with a new chain sets it before, and takes it back once that is ready.
    /// While it isn't set, no chain is newer than the one that is ready.
    pub renewing: bool,
    pub round: Tracing,
    /// The sectors of answers and of keys of writes since the priorities of data were lowered last.
    pub served: u64,
    pub ghost order: { IsInOrder reserves },
    pub ghost fit: { AreFor reserves buckets },
    pub ghost open: { ∥ AreOpen fill reserves buckets ∥₁ },
    pub ghost sized: { 0 < buckets.size },
}

/// A large part, kept apart, so that it is taken and given by the one word that leads there.
#[derive(Drop)]
pub struct Apart<T> {
    inner: Box<T>,
}

impl<T> Model for Apart<T> {
    ghost Value = { T };

    ghost view = { λ a. a.inner.value };
}

impl<T> Apart<T> {
    ghost use Rattle.std.specs.Prelude.{◌≡◌, MatchResult};
    ghost use Rattle.bc_machine.specs.Lending.{LendsPart};
    ghost use Rattle.std.specs.Borrow.{sem};

    /// Puts the part there. `Err` comes from want of memory.
    pub fn new(alloc: Global, part: T) -> Result<Apart<T>, AllocFailed<T>>
        ensures { MatchResult result (λ apart. apart ≡ part) (λ failed. failed.value ≡ part) }
    {
        let inner = Box::new(alloc, part)?;
        Ok(Apart { inner })
    }

    /// The part.
    pub fn get(&self) -> &T
        ensures { result.now ≡ self.now }
    {
        &self.inner
    }

    /// The part, to be changed where it lies.
    pub fn get_mut(&mut self) -> &mut T
        ensures* lends { sem 𝓛 (LendsPart T.row self.entry result) }
        ensures part { result.now ≡ self.old }
    {
        &mut self.inner
    }
}

/// One part of the running state. A run has them in the order of their numbers.
#[derive(Drop)]
pub enum CorePart<C, B> {
    /// A part that the run hasn't: one over the backing device alone has no cache.
    Absent,
    Spine(Apart<SpinePart>),
    Flight(Flight),
    Buckets(Apart<BucketsPart>),
    Journal(Apart<Journal>),
    Cache(C),
    Backing(BackingPart<B>),
    Leaves(NodeCache),
}
