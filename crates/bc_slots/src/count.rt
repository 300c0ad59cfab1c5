//! How many slots the parts need.
ghost use Rattle.std.specs.Prelude.{◌≡◌, ◌+◌, ◌<◌, ◌≤◌, ◌^◌, length, slice_index, IfOk, IsTrue, ℕ};
ghost use Rattle.bc_slots.specs.Filling.{AreCounts, AreEmpty};

use bc_cache::NodeCache;
use bc_disk::geometry::Geometry;
use bc_pending::Pending;
use std::alloc::{AllocError, Global};

/// How many slots a part has besides those for its leaves of which the journal has keys.
pub const SPARE: u32 = 4;

/// For each part, of so many, how many of its leaves have keys.
pub fn count_leaves(alloc: Global, pending: &[Pending], count: u32) -> Result<Vec<u32>, AllocError>
    requires some { 0 < count }
    requires few { length pending.now < 2 ^ 32 }
    ensures { IfOk result (λ counts. AreCounts pending.now count counts.items) }
{
    let mut counts = vec![in alloc; 0u32; count as usize]?;
    for (i, keys) in pending.iter().enumerate() {
        if !keys.as_slice().is_empty() {
            counts[i % count as usize] += 1;
        }
    }
    Ok(counts)
}

/// A part without leaves for each of these numbers, with that many slots and four more.
pub fn empty_parts(
    alloc: Global,
    g: &Geometry,
    counts: &[u32],
) -> Result<Vec<NodeCache>, AllocError>
    requires { (p : ℕ) → p < length counts.now → slice_index counts.now p + 4 < 2 ^ 32 }
    ensures { IfOk result (λ parts. AreEmpty g.now counts.now parts.items) }
{
    let mut parts = Vec::new(alloc);
    for count in counts {
        parts.push(NodeCache::new(alloc, g, *count + SPARE)?)?;
    }
    Ok(parts)
}
