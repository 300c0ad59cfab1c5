//! A small pair in memory: a formatted one.
ghost use Rattle.std.specs.Prelude.{◌+◌, ◌*◌, ◌≤◌, length};

use bc_disk::mem_disk::MemDisk;
use bc_mode::Mode;
use bc_pair::format::{NewPair, format};
use std::alloc::{AllocError, Global};
use std::process::Abort;
use std::test::Fail;

// A disk of so many zeros, in sectors.
fn blank(alloc: Global, sectors: usize) -> Result<MemDisk, AllocError>
    requires { sectors ≤ 65536 }
{
    MemDisk::new(alloc, vec![in alloc; 0u8; 512 * sectors]?, 1000)
}

// Makes each of 32 sectors from `at` on begin with its number behind that.
fn mark(bytes: &mut [u8], at: usize)
    requires { 512 * (at + 32) ≤ length bytes.old }
{
    for i in 0..32 {
        bytes[512 * (at + i)] = i as u8;
    }
}

// The same disk, but that 32 sectors from `at` on are marked so.
fn marked(rt: &impl Abort, alloc: Global, disk: &MemDisk, at: usize) -> Result<MemDisk, Fail>
    requires { at ≤ 65536 }
{
    let mut bytes = Vec::from_slice(alloc, disk.bytes())?;
    assert!(rt; 512 * (at + 32) <= bytes.len());
    mark(&mut bytes, at);
    Ok(MemDisk::new(alloc, bytes, 1000)?)
}

/// A new pair, with 1,024 sectors of data, of which each of the first 32 begins with its number.
/// The cache device has 128 buckets of 64 sectors, and the tree's one leaf stands in sector 768.
pub(crate) fn pair(rt: &impl Abort, alloc: Global) -> Result<(MemDisk, MemDisk), Fail> {
    let mut cache = blank(alloc, 128 * 64)?;
    let mut backing = blank(alloc, 1040)?;
    let new = NewPair {
        set_uuid: [1; 16],
        cache_uuid: [2; 16],
        backing_uuid: [3; 16],
        block: 1,
        bucket: 64,
        mode: Mode::Writeback,
        offset: 16,
    };
    format(alloc, &mut cache, &mut backing, &new)?;
    Ok((cache, marked(rt, alloc, &backing, 16)?))
}
