//! What each bucket is used for.
//!
//! A bucket with two uses is one whose next writer destroys what the other use keeps there. So each
//! use is noted in one table, which has room for one; a second one that differs shows at once.
ghost use Rattle.std.specs.Prelude.{◌≡◌, ◌≢◌, ◌++◌, ◌<◌, ◌≤◌, ◌^◌, ◌∷◌, ℕ, [], true, List, Option, length, IfOk, IfSome};
ghost use Rattle.std.specs.List.{flat_map};
ghost use Rattle.bc_disk.specs.declared.geometry.Geometry.{Geometry};
ghost use Rattle.bc_image.specs.Sound.{IsNodeKey};
ghost use Rattle.bc_image.specs.Shown.{generation_of, age_of, is_live};
ghost use Rattle.bc_key.specs.declared.key.Key.{Key};
ghost use Rattle.bc_walk.specs.declared.visit.Visit.TheVariants as visits;
ghost use Rattle.bc_replay.specs.Marks.{Mark, mark, lower_of, IsMarkedFor, AreMarked, key_marks, chain_marks, visit_marks, row_marks, all_marks, IsLeastOf, CountsNone};
ghost use Rattle.bc_replay.specs.Refused.{TellTrue};
ghost use Rattle.bc_replay.specs.Used.{IsMetTwice};
ghost use Rattle.bc_replay.specs.declared.uses.Use.TheVariants as uses;

use bc_disk::gens::Gens;
use bc_disk::geometry::Geometry;
use bc_extent::Extents;
use bc_key::{Key, Ptr};
use bc_walk::{Visit, bucket_of};
use std::alloc::{AllocError, Global};

/// What a bucket is used for.
#[derive(Clone, Copy, Debug, PartialEq, Eq, Drop)]
pub enum Use {
    /// Nothing.
    None,
    /// The superblock: so are all buckets below the first of the journal.
    Super,
    /// Entries of the journal.
    Journal,
    /// A set of priorities and generations.
    Priority,
    /// The table of uuids.
    Uuid,
    /// A node of the index.
    Node,
    /// Data of some sector of the backing device.
    Data,
}

/// The generation of a bucket; 0 where nothing is told of it.
pub fn generation_of(gens: &Gens, bucket: u64) -> u8
    ensures { result ≡ generation_of gens.now bucket }
{
    match gens.records().get(bucket as usize) {
        Some(record) => record.generation,
        None => 0,
    }
}

/// How many generations a pointer lies behind its bucket, modulo 256.
pub fn age_of(g: &Geometry, gens: &Gens, ptr: &Ptr) -> u8
    ensures { result ≡ age_of g.now gens.now ptr.now }
{
    let bucket = ptr.offset / u64::from(g.bucket);
    generation_of(gens, bucket).wrapping_sub(ptr.generation)
}

/// Whether the data of a key is on the cache device.
pub fn is_live(g: &Geometry, gens: &Gens, key: &Key) -> bool
    ensures { result ≡ is_live g.now gens.now key.now }
{
    match key.pointer() {
        Some(ptr) => {
            let age = age_of(g, gens, &ptr);
            !(1 <= age && age <= 128)
        }
        None => false,
    }
}

/// A use for each bucket, and the least bucket for which a second one was noted.
#[derive(Drop)]
pub struct Table {
    /// The use that was noted first.
    pub uses: Vec<Use>,
    /// The least bucket with another one.
    pub mixed: Option<u64>,
}

/// What the geometry alone says of a bucket.
fn laid_out(g: &Geometry, bucket: u32) -> Use
    ensures { IsMarkedFor g.now [] bucket result }
{
    let journal = u32::from(g.first_bucket);
    if bucket < journal {
        Use::Super
    } else if bucket < journal + u32::from(g.journal) {
        Use::Journal
    } else {
        Use::None
    }
}

/// The lower of two buckets, where they are there.
fn lower_of(one: Option<u64>, other: Option<u64>) -> Option<u64>
    ensures lower { result ≡ lower_of one other }
    ensures small { IfSome one (λ b. b < 2 ^ 32) → IfSome other (λ b. b < 2 ^ 32)
        → IfSome result (λ b. b < 2 ^ 32) }
{
    match (one, other) {
        (Some(a), Some(b)) => Some(a.min(b)),
        (Some(a), None) => Some(a),
        (None, other) => other,
    }
}

impl Table {
    /// A table of what the geometry alone says.
    fn new(alloc: Global, g: &Geometry) -> Result<Table, AllocError>
        ensures { IfOk result (λ t. AreMarked g.now [] t.uses.items t.mixed) }
    {
        let mut uses = Vec::with_capacity(alloc, g.nbuckets as usize)?;
        for bucket in 0..g.nbuckets {
            uses.push(laid_out(g, bucket))?;
        }
        Ok(Table { uses, mixed: None })
    }

    /// Notes that a bucket has a use. Of one that the device hasn't got nothing is noted.
    fn note(&mut self, kind: Use, bucket: u64)
        requires { kind ≢ uses.None }
        ensures { (g : Geometry) (marks : List Mark)
            → AreMarked g marks self.old.uses.items self.old.mixed
            → AreMarked g (marks ++ mark kind bucket ∷ []) self.new.uses.items self.new.mixed }
    {
        if bucket >= self.uses.len() as u64 {
            return;
        }
        let noted = self.uses[bucket as usize];
        if noted == Use::None {
            self.uses[bucket as usize] = kind;
        } else if noted != kind {
            self.mixed = lower_of(self.mixed, Some(bucket));
        }
    }

    /// Notes the use of the bucket into which a key points.
    fn note_key(&mut self, g: &Geometry, kind: Use, key: &Key)
        requires { kind ≢ uses.None }
        ensures { (marks : List Mark) → AreMarked g.now marks self.old.uses.items self.old.mixed
            → AreMarked g.now (marks ++ key_marks g.now kind key.now) self.new.uses.items
            self.new.mixed }
    {
        if let Some(ptr) = key.pointer() {
            self.note(kind, ptr.offset / u64::from(g.bucket));
        }
    }

    /// Notes the buckets of a chain of generations.
    fn note_chain(&mut self, chain: &[u32])
        ensures { (g : Geometry) (marks : List Mark)
            → AreMarked g marks self.old.uses.items self.old.mixed
            → AreMarked g (marks ++ chain_marks chain.now) self.new.uses.items self.new.mixed }
    {
        for bucket in chain {
            self.note(Use::Priority, u64::from(*bucket));
        }
    }

    /// Notes the bucket of the node that a walk met, if it did.
    fn note_node(&mut self, g: &Geometry, visit: &Visit)
        ensures { (marks : List Mark) → AreMarked g.now marks self.old.uses.items self.old.mixed
            → AreMarked g.now (marks ++ visit_marks g.now visit.now) self.new.uses.items
            self.new.mixed }
    {
        match visit {
            Visit::Met { key, .. } => self.note_key(g, Use::Node, key),
            Visit::Barred { .. } => {}
            Visit::Again { .. } => {}
        }
    }

    /// Notes the buckets of the nodes that a walk met.
    fn note_nodes(&mut self, g: &Geometry, seen: &[Visit])
        ensures { (marks : List Mark) → AreMarked g.now marks self.old.uses.items self.old.mixed
            → AreMarked g.now (marks ++ flat_map (visit_marks g.now) seen.now) self.new.uses.items
            self.new.mixed }
    {
        for visit in seen {
            self.note_node(g, visit);
        }
    }

    /// Notes the bucket in which a last key has data, if it is live.
    fn note_row(&mut self, g: &Geometry, gens: &Gens, row: &Key)
        ensures { (marks : List Mark) → AreMarked g.now marks self.old.uses.items self.old.mixed
            → AreMarked g.now (marks ++ row_marks g.now gens.now row.now) self.new.uses.items
            self.new.mixed }
    {
        if is_live(g, gens, row) {
            self.note_key(g, Use::Data, row);
        }
    }

    /// Notes the buckets in which the last keys have live data.
    fn note_data(&mut self, g: &Geometry, gens: &Gens, index: &Extents)
        ensures { (marks : List Mark) → AreMarked g.now marks self.old.uses.items self.old.mixed
            → AreMarked g.now (marks ++ flat_map (row_marks g.now gens.now) index.now.keys)
            self.new.uses.items self.new.mixed }
    {
        for i in 0..index.len() {
            self.note_row(g, gens, &index.key(i));
        }
    }

    /// A table of all uses.
    pub fn of(
        alloc: Global,
        g: &Geometry,
        gens: &Gens,
        uuid_bucket: &Key,
        seen: &[Visit],
        index: &Extents,
    ) -> Result<Table, AllocError>
        ensures { IfOk result (λ t. AreMarked g.now
            (all_marks g.now gens.now uuid_bucket.now seen.now index.now.keys) t.uses.items t.mixed) }
    {
        let mut table = Table::new(alloc, g)?;
        table.note_chain(gens.chain());
        table.note_key(g, Use::Uuid, uuid_bucket);
        table.note_nodes(g, seen);
        table.note_data(g, gens, index);
        Ok(table)
    }
}

/// The bucket of a node to which a walk came that it had read before.
fn again_in(g: &Geometry, visit: &Visit) -> Option<u64>
    ensures least { ((key : Key) → visit.now ≡ visits.Again key → IsNodeKey g.now key)
        → IsLeastOf (IsMetTwice g.now (visit.now ∷ [])) result }
    ensures small { IfSome result (λ b. b < 2 ^ 32) }
{
    let Visit::Again { key } = visit else {
        return None;
    };
    match bucket_of(g, key) {
        Some(bucket) => Some(u64::from(bucket)),
        None => None,
    }
}

/// The least bucket to whose node a walk came that it had read before.
pub fn met_twice(g: &Geometry, seen: &[Visit]) -> Option<u64>
    ensures least { TellTrue g.now true seen.now → IsLeastOf (IsMetTwice g.now seen.now) result }
    ensures small { IfSome result (λ b. b < 2 ^ 32) }
{
    let mut least = None;
    for visit in seen {
        least = lower_of(least, again_in(g, visit));
    }
    least
}

/// The least bucket that is used twice.
pub fn used_twice(g: &Geometry, table: &Table, seen: &[Visit]) -> Option<u64>
    requires { IfSome table.now.mixed (λ b. b < 2 ^ 32) }
    ensures least { TellTrue g.now true seen.now → ((two : Option ℕ)
        × IsLeastOf (IsMetTwice g.now seen.now) two × (result ≡ lower_of table.now.mixed two)) }
    ensures small { IfSome result (λ b. b < 2 ^ 32) }
{
    lower_of(table.mixed, met_twice(g, seen))
}

/// How many buckets have no use.
pub fn count_spare(g: &Geometry, uses: &[Use]) -> u32
    requires { length uses.now ≡ g.now.nbuckets }
    ensures count { CountsNone uses.now g.now.nbuckets result }
    ensures most { result ≤ g.now.nbuckets }
{
    let mut count = 0;
    for bucket in 0..g.nbuckets {
        if uses[bucket as usize] == Use::None {
            count += 1;
        }
    }
    count
}
