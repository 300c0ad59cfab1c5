//! The geometry of a cache device, from what its superblock says.
//!
//! Every record of a cache set has a magic number that is made with the first word of the set's uuid,
//! so that what another set left on the device isn't read. So a geometry comes from a superblock, and
//! from nothing else.
ghost use Rattle.std.specs.Prelude.{◌≡◌, ℕ};
ghost use Rattle.bc_disk.specs.declared.geometry.Geometry.{Geometry};
ghost use Rattle.bc_super.specs.declared.cache.CacheSuper.{CacheSuper};
ghost use Rattle.bc_super.specs.Cache.{IsUsableCache};
ghost use Rattle.bc_super.specs.Division.{IsGeometryOf};

use crate::cache::CacheSuper;
use bc_bytes::get_u64;
use bc_disk::geometry::Geometry;

/// How the device with this superblock is divided, and what the magic numbers of its set's records
/// are made with. Takes no memory.
pub fn geometry_of(s: &CacheSuper) -> Geometry
    requires { (sectors : ℕ) × IsUsableCache sectors s.now }
    ensures { IsGeometryOf s.now result }
{
    Geometry {
        block: s.block,
        bucket: s.bucket,
        nbuckets: s.nbuckets,
        first_bucket: s.first_bucket,
        journal: s.journal,
        set_magic: get_u64(&s.set_uuid, 0),
        node_sectors: s.bucket.min(512),
    }
}

/// A superblock has one geometry.
pub fn one_geometry()
    ensures { (s : CacheSuper) (a b : Geometry) → IsGeometryOf s a → IsGeometryOf s b → a ≡ b }
{}
