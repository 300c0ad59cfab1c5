//! The buckets of a pair, with what is known of them.
ghost use Rattle.std.specs.Prelude.{◌≡◌, length, IfOk};
ghost use Rattle.bc_bucket.specs.Buckets.{EachChanged};
ghost use Rattle.bc_image.specs.Pair.{Pair};
ghost use Rattle.bc_recover.specs.Known.{AreKnown, AreUnheld};
ghost use Rattle.bc_recover.specs.Opened.{AreMarked, is_metadata, marked_by};
ghost use Rattle.bc_recover.specs.Read.{HasParts, IsReadOf};

use bc_bucket::{Buckets, Mark};
use bc_disk::gens::Gens;
use bc_disk::geometry::Geometry;
use bc_extent::Extents;
use bc_replay::{Survey, Use};
use bc_traced::trace_rows;
use std::alloc::{AllocError, Global};

/// Whether this is one of the uses that aren't data.
fn is_metadata(kind: Use) -> bool
    ensures { result ≡ is_metadata kind }
{
    match kind {
        Use::None | Use::Data => false,
        Use::Super | Use::Journal | Use::Priority | Use::Uuid | Use::Node => true,
    }
}

/// Marks the buckets that hold something of the cache itself.
fn mark_metadata(buckets: &mut Buckets, g: &Geometry, uses: &[Use])
    requires records { length buckets.old.records ≡ g.now.nbuckets }
    requires uses { length uses.now ≡ g.now.nbuckets }
    ensures { EachChanged (marked_by uses.now) buckets.old buckets.new }
{
    for k in 0..g.nbuckets {
        if is_metadata(uses[k as usize]) {
            let used = buckets.get(k).used;
            buckets.mark(k, Mark::Metadata, used);
        }
    }
}

/// The buckets with these priorities and generations, as the rows of an index and a table of uses say.
fn opened(
    alloc: Global,
    g: &Geometry,
    gens: &Gens,
    rows: &Extents,
    uses: &[Use],
) -> Result<Buckets, AllocError>
    requires gens { length gens.now.records ≡ g.now.nbuckets }
    requires uses { length uses.now ≡ g.now.nbuckets }
    ensures { IfOk result (AreMarked g.now gens.now.records rows.now.keys uses.now) }
{
    let mut buckets = trace_rows(alloc, g, gens, rows)?;
    mark_metadata(&mut buckets, g, uses);
    Ok(buckets)
}

/// The buckets of a pair that was read: priorities and generations are those that its newest entry
/// names; each bucket has the mark of what it is used for; its used count is that of the sectors
/// whose last keys are live in it, 2^32 - 1 at most; and `last_gc` is the oldest generation of a last
/// key that points into it, live or not, and the bucket's own where none does. The time is linear in
/// the number of rows and that of buckets. Of each bucket of the survey's geometry there is one here,
/// which nobody holds, whatever the devices tell.
pub fn buckets_of(alloc: Global, s: &Survey) -> Result<Buckets, AllocError>
    requires { HasParts s.now }
    ensures known { IfOk result (λ b. (p : Pair) → (h : IsReadOf s.now p)
        → AreKnown h.view.geometry h.view.reading b) }
    ensures unheld { IfOk result (AreUnheld s.now.supers.geometry.nbuckets) }
{
    opened(alloc, &s.supers.geometry, &s.gens, &s.index, &s.uses)
}
