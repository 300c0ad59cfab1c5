//! How many records a set has.
ghost use Rattle.std.specs.Prelude.{◌≡◌, ◌+◌, ◌*◌, ◌<◌, ◌≤◌, ◌^◌};
ghost use Rattle.bc_disk.specs.Chain.{bucket_bytes, sets_in_chain};
ghost use Rattle.bc_prio.specs.Set.{records_in};

use bc_disk::chain::{first_in_part, records_in_set};
use bc_disk::geometry::Geometry;

/// How many records this part has.
pub fn records_in_part(g: &Geometry, part: u32) -> u32
    requires { part < sets_in_chain g.now }
    ensures count { result ≡ records_in g.now part }
    ensures room { 40 + 3 * result ≤ bucket_bytes g.now }
{
    records_in_set(g).min(g.nbuckets - first_in_part(g, part))
}
