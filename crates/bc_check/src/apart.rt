//! Where the two devices have different data.
//!
//! A live clean sector is one that the cache device may lose, or overwrite, since the backing
//! device has the same. If it hasn't, what a user reads depends on which of them is asked.
ghost use Rattle.std.specs.Prelude.{◌≡◌, ◌*◌, ◌/◌, ◌+◌, ◌<◌, ◌≤◌, length, IfOk, IfErr, IfSome, OnOk};
ghost use Rattle.bc_disk.specs.Disk.{IsOnDisk};
ghost use Rattle.bc_replay.specs.Causes.{OfHeld};
ghost use Rattle.bc_check.specs.Apart.{IsFirstNot, AreSame, AreSameIn};
ghost use Rattle.bc_check.specs.Calls.{BothKept, CountsFault, IsWant, NoneFailed};

use crate::read::read_of;
use crate::verdict::CheckError;
use bc_disk::disk::{Device, Disk};

/// So many sectors are read of a device by one call at most.
pub const AT_ONCE: u64 = 256;

/// The first sector that these bytes have different, counted from their front.
fn first_other(one: &[u8], other: &[u8]) -> Option<u64>
    requires { length one.now ≡ length other.now }
    ensures { IsFirstNot (AreSameIn one.now other.now) (length one.now / 512) result }
{
    for k in 0..one.len() / 512 {
        if one[512 * k..512 * k + 512] != other[512 * k..512 * k + 512] {
            return Some(k as u64);
        }
    }
    None
}

/// The first sector of a piece that the devices have different, counted from its first one. It
/// begins at these sectors of the cache device and of the backing device, and the buffers say its
/// length.
fn piece_apart<C: Disk, B: Disk>(
    cache: &mut C,
    backing: &mut B,
    place: u64,
    at: u64,
    one: &mut [u8],
    other: &mut [u8],
) -> Result<Option<u64>, CheckError>
    requires same { length one.old ≡ length other.old }
    requires cache { IsOnDisk place (length one.old) (C.facts cache.old) }
    requires backing { IsOnDisk at (length other.old) (B.facts backing.old) }
    ensures found { IfOk result (λ o. OfHeld
        (λ p. IsFirstNot (AreSame p place at) (length one.old / 512) o)
        (C.facts cache.old) (B.facts backing.old)) }
    ensures within { IfOk result (λ o. IfSome o (λ k. k < length one.old / 512)) }
    ensures want { IfErr result IsWant }
    ensures kept { BothKept (C.facts cache.old) (C.facts cache.new) (B.facts backing.old)
        (B.facts backing.new) }
    ensures faults { IfErr result (λ e. CountsFault e (C.facts cache.old) (C.facts cache.new)
        (B.facts backing.old) (B.facts backing.new)) }
    ensures good { OnOk result (NoneFailed (C.facts cache.old) (C.facts cache.new)
        (B.facts backing.old) (B.facts backing.new)) }
{
    read_of(Device::Cache, cache, place, one)?;
    read_of(Device::Backing, backing, at, other)?;
    Ok(first_other(one, other))
}

/// The first of so many sectors that the devices have different, counted from the first one. They
/// begin at these sectors of the cache device and the backing device, and are read by pieces. The
/// buffers have room for a piece each.
pub fn run_apart<C: Disk, B: Disk>(
    cache: &mut C,
    backing: &mut B,
    place: u64,
    at: u64,
    count: u64,
    one: &mut [u8],
    other: &mut [u8],
) -> Result<Option<u64>, CheckError>
    requires one { length one.old ≡ 512 * 256 }
    requires other { length other.old ≡ 512 * 256 }
    requires cache { place + count ≤ (C.facts cache.old).sectors }
    requires backing { at + count ≤ (B.facts backing.old).sectors }
    ensures found { IfOk result (λ o. OfHeld (λ p. IsFirstNot (AreSame p place at) count o)
        (C.facts cache.old) (B.facts backing.old)) }
    ensures within { IfOk result (λ o. IfSome o (λ k. k < count)) }
    ensures want { IfErr result IsWant }
    ensures kept { BothKept (C.facts cache.old) (C.facts cache.new) (B.facts backing.old)
        (B.facts backing.new) }
    ensures faults { IfErr result (λ e. CountsFault e (C.facts cache.old) (C.facts cache.new)
        (B.facts backing.old) (B.facts backing.new)) }
    ensures good { OnOk result (NoneFailed (C.facts cache.old) (C.facts cache.new)
        (B.facts backing.old) (B.facts backing.new)) }
{
    let mut done = 0;
    while done < count {
        let piece = (count - done).min(AT_ONCE);
        let bytes = 512 * piece as usize;
        let (one, other) = (&mut one[..bytes], &mut other[..bytes]);
        if let Some(k) = piece_apart(cache, backing, place + done, at + done, one, other)? {
            return Ok(Some(done + k));
        }
        done += piece;
    }
    Ok(None)
}
