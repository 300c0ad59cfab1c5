//! How many records and sets the chain of priority sets has, by how the device is divided.
ghost use Rattle.std.specs.Prelude.{◌≡◌, ◌*◌, ◌<◌};
ghost use Rattle.bc_disk.specs.Chain.{records_in_set, sets_in_chain};

use crate::geometry::Geometry;

/// The bytes of a set before its records.
pub const HEADER: u32 = 40;

/// The bytes of a record.
pub const RECORD: u32 = 3;

/// How many records fit into a set, which fills a bucket.
pub fn records_in_set(g: &Geometry) -> u32
    ensures { result ≡ records_in_set g.now }
{
    (512 * u32::from(g.bucket) - HEADER) / RECORD
}

/// How many sets a chain has: as many as it takes to hold a record of each bucket.
pub fn sets_in_chain(g: &Geometry) -> u32
    ensures { result ≡ sets_in_chain g.now }
{
    let fit = records_in_set(g);
    (g.nbuckets + (fit - 1)) / fit
}

/// The bucket whose record is the first of this part.
pub fn first_in_part(g: &Geometry, part: u32) -> u32
    requires { part < sets_in_chain g.now }
    ensures first { result ≡ part * records_in_set g.now }
    ensures within { result < g.now.nbuckets }
{
    part * records_in_set(g)
}
