//! What is known of a bucket, and what is found for it by looking at each key that points into it.
ghost use Rattle.std.specs.Prelude.{◌≡◌, ◌↔◌, ◌<◌, ◌-◌, ◌^◌, IsTrue};
ghost use Rattle.bc_bucket.specs.Buckets.{settled_unless};
ghost use Rattle.bc_bucket.specs.Meaning.{IsFound};
ghost use Rattle.bc_key.specs.Generation as generations;
ghost use Rattle.bc_bucket.specs.Bucket as buckets;
ghost use Rattle.bc_bucket.specs.Walk as walks;

use bc_bucket::laws::walk_counts;
use bc_bucket::{Bucket, Found, Mark, Reference};

/// How often a generation rose to come to the bucket's own one, modulo 256.
pub fn behind(own: u8, generation: u8) -> u8
    ensures { result ≡ generations.behind own generation }
{
    ((256 + u16::from(own) - u16::from(generation)) % 256) as u8
}

/// Whether the bucket was given up since this generation.
pub fn is_stale(own: u8, generation: u8) -> bool
    ensures { result ≡ walks.is_stale own generation }
{
    let rises = behind(own, generation);
    1 <= rises && rises <= 128
}

/// Whether the bucket may be given up.
pub fn is_reclaimable(bucket: &Bucket) -> bool
    ensures { IsTrue result ↔ buckets.IsReclaimable bucket.now }
{
    let needed = match bucket.mark {
        Mark::Dirty | Mark::Metadata => true,
        Mark::None | Mark::Reclaimable => false,
    };
    if needed || bucket.held || 0 < bucket.pins {
        return false;
    }
    behind(bucket.generation, bucket.last_gc) < 96 && bucket.uses < u64::MAX
}

/// The bucket with this number one step older, on a device whose data begins at bucket `data_from`.
pub fn aged(data_from: u32, bucket: u32, known: &Bucket) -> Bucket
    ensures { result ≡ buckets.aged data_from bucket known.now }
{
    let mut older = *known;
    if known.mark != Mark::Metadata && data_from <= bucket && 0 < known.priority {
        older.priority = known.priority - 1;
    }
    older
}

/// The bucket with this number after a look found data in it.
pub fn hit(data_from: u32, bucket: u32, known: &Bucket) -> Bucket
    ensures { result ≡ buckets.hit data_from bucket known.now }
{
    let mut newest = *known;
    if known.mark != Mark::Metadata && data_from <= bucket {
        newest.priority = 1 << 15;
    }
    newest
}

/// The bucket with this mark and so many used sectors.
pub fn marked(mark: Mark, used: u32, known: &Bucket) -> Bucket
    ensures { result ≡ buckets.marked mark used known.now }
{
    let priority = match (known.mark, mark) {
        (_, Mark::Metadata) => u16::MAX,
        (Mark::Metadata, _) => 0,
        _ => known.priority,
    };
    Bucket {
        mark,
        used,
        priority,
        ..*known
    }
}

/// The bucket once more given up.
pub fn raised(known: &Bucket) -> Bucket
    requires { known.now.uses < 2 ^ 64 - 1 }
    ensures { result ≡ buckets.raised known.now }
{
    let generation = match known.generation {
        255 => 0,
        generation => generation + 1,
    };
    Bucket {
        generation,
        uses: known.uses + 1,
        ..*known
    }
}

/// The bucket after a round that found this for it, unless a key into it was added meanwhile.
pub fn settled(touched: bool, found: &Found, known: &Bucket) -> Bucket
    ensures { result ≡ settled_unless touched found.now known.now }
{
    if touched {
        return *known;
    }
    let last_gc = match found.last_gc {
        Some(oldest) => oldest,
        None => known.generation,
    };
    match known.mark {
        Mark::Metadata => Bucket { last_gc, ..*known },
        _ => Bucket {
            last_gc,
            mark: found.mark,
            used: found.used,
            ..*known
        },
    }
}

// The older one of these two generations of pointers into the bucket.
fn older(own: u8, oldest: Option<u8>, generation: u8) -> u8
    ensures { result ≡ walks.older own oldest generation }
{
    let Some(oldest) = oldest else {
        return generation;
    };
    if behind(own, generation) > behind(own, oldest) {
        generation
    } else {
        oldest
    }
}

// The mark with one more key that isn't stale.
fn mark_with(dirty: bool, mark: Mark) -> Mark
    ensures { result ≡ walks.mark_with dirty mark }
{
    match (dirty, mark) {
        (true, _) => Mark::Dirty,
        (false, Mark::None) => Mark::Reclaimable,
        (false, mark) => mark,
    }
}

// What is found with one more pointer.
fn counted(own: u8, reference: &Reference, found: &Found) -> Found
    ensures { result ≡ walks.counted own reference.now found.now }
{
    let last_gc = Some(older(own, found.last_gc, reference.generation));
    if is_stale(own, reference.generation) {
        return Found { last_gc, ..*found };
    }
    let used = u64::from(found.used) + u64::from(reference.sectors);
    Found {
        mark: mark_with(reference.dirty, found.mark),
        used: used.min(u64::from(u32::MAX)) as u32,
        last_gc,
    }
}

/// What is found for a bucket of this generation into which these pointers of keys point.
pub fn found(own: u8, references: &[Reference]) -> Found
    ensures { IsFound own references.now result }
{
    walk_counts();
    let mut found = Found::NONE;
    for reference in references {
        found = counted(own, reference, &found);
    }
    found
}
