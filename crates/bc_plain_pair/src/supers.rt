//! The superblocks of a pair.
ghost use Rattle.std.specs.Prelude.{◌≡◌, ◌≢◌, IfOk};
ghost use Rattle.bc_super.specs.declared.cache.CacheSuper.{CacheSuper};
ghost use Rattle.bc_super.specs.declared.error.SuperError.{SuperError};
ghost use Rattle.bc_super.specs.declared.backing.BackingSuper.{BackingSuper};
ghost use Rattle.bc_image.specs.Pair.{HasCache, HasBacking};
ghost use Rattle.bc_plain_pair.specs.PairBytes.{pair_of, AreSectors, Finds};

use bc_disk::mem_disk::MemDisk;
use bc_super::backing::{BackingSuper, read_backing};
use bc_super::cache::{CacheSuper, read_cache};
use bc_super::error::SuperError;
use std::alloc::{AllocError, Global};

/// A disk of these bytes, which fails never.
pub fn disk_of(alloc: Global, bytes: &[u8]) -> Result<MemDisk, AllocError>
    requires { AreSectors bytes.now }
    ensures { IfOk result (λ d. d.seen.items ≡ bytes.now) }
{
    MemDisk::new(alloc, Vec::from_slice(alloc, bytes)?, 0)
}

// Nothing where a superblock was refused; a fault stays an error.
fn refused(error: SuperError) -> Result<(), AllocError>
    ensures { IfOk result (λ _. error ≢ SuperError.Fault) }
{
    match error {
        SuperError::Fault => Err(AllocError),
        _ => Ok(()),
    }
}

/// What the cache device says of itself; nothing where it has no superblock that can be used.
pub fn cache_super(
    alloc: Global,
    cache: &[u8],
    backing: &[u8],
) -> Result<Option<CacheSuper>, AllocError>
    requires { AreSectors cache.now }
    ensures { IfOk result (Finds (HasCache (pair_of cache.now backing.now))) }
{
    let _ = backing;
    let mut disk = disk_of(alloc, cache)?;
    match read_cache(&mut disk) {
        Ok(s) => Ok(Some(s)),
        Err(error) => {
            refused(error)?;
            Ok(None)
        }
    }
}

/// What the backing device says of itself; nothing where it has no superblock that can be used.
pub fn backing_super(
    alloc: Global,
    cache: &[u8],
    backing: &[u8],
) -> Result<Option<BackingSuper>, AllocError>
    requires { AreSectors backing.now }
    ensures { IfOk result (Finds (HasBacking (pair_of cache.now backing.now))) }
{
    let _ = cache;
    let mut disk = disk_of(alloc, backing)?;
    match read_backing(&mut disk) {
        Ok(s) => Ok(Some(s)),
        Err(error) => {
            refused(error)?;
            Ok(None)
        }
    }
}
