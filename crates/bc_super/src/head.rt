//! What a superblock of either kind is known by.
ghost use Rattle.std.specs.Prelude.{◌≡◌, ◌↔◌, ◌+◌, ◌*◌, ◌≤◌, length, IsTrue, IfErr, OnOk};
ghost use Rattle.bc_bytes.specs.Fields.{SameOutside};
ghost use Rattle.bc_super.specs.Super.{HasMagic, HasChecksum, IsSuper, FirstFault, count_in};

use crate::error::SuperError;
use bc_bytes::{crc64, get_u16, get_u64, put_u64};

/// The sector at which a superblock begins.
pub(crate) const SUPER_SECTOR: u64 = 8;

/// The sectors before this one are set aside on each device.
pub const DATA_START: u64 = 16;

/// The bytes of the five sectors that a superblock with the longest list needs.
pub(crate) const SUPER_BYTES: usize = 2560;

/// The most buckets that a journal may have.
const MOST_JOURNAL_BUCKETS: u16 = 256;

/// What tells a superblock from other bytes.
pub(crate) const MAGIC: [u8; 16] = [
    0xc6, 0x85, 0x73, 0xf6, 0x4e, 0x1a, 0x45, 0xca, 0x82, 0x65, 0xf5, 0x7f, 0x48, 0xba, 0x6d, 0x81,
];

// Whether they may be a superblock.
fn has_magic(bytes: &[u8]) -> bool
    requires { 40 ≤ length bytes.now }
    ensures { IsTrue result ↔ HasMagic bytes.now }
{
    bytes[24..40] == MAGIC[..]
}

// Whether they tell the checksum of their own bytes.
fn has_checksum(bytes: &[u8], count: u16) -> bool
    requires count { count ≡ count_in bytes.now }
    requires whole { 208 + 8 * count ≤ length bytes.now }
    ensures { IsTrue result ↔ HasChecksum bytes.now }
{
    let end = 208 + 8 * usize::from(count);
    get_u64(bytes, 0) == crc64(u64::MAX, &bytes[8..end])
}

/// Tests what a superblock of either kind is known by. The error is the first of these that holds:
/// `Magic`; `Place`; `JournalList`, where the list has more than 256 items; `Checksum`.
pub(crate) fn check_head(bytes: &[u8]) -> Result<(), SuperError>
    requires { length bytes.now ≡ 2560 }
    ensures ok { OnOk result (IsSuper bytes.now) }
    ensures refused { IfErr result (λ e. FirstFault bytes.now e ⊥) }
{
    if !has_magic(bytes) {
        return Err(SuperError::Magic);
    }
    if get_u64(bytes, 8) != SUPER_SECTOR {
        return Err(SuperError::Place);
    }
    let count = get_u16(bytes, 206);
    if count > MOST_JOURNAL_BUCKETS {
        return Err(SuperError::JournalList);
    }
    if !has_checksum(bytes, count) {
        return Err(SuperError::Checksum);
    }
    Ok(())
}

/// Writes the checksum of the other bytes, up to the end of the list.
pub(crate) fn put_checksum(bytes: &mut [u8])
    requires head { 208 ≤ length bytes.old }
    requires list { 208 + 8 * count_in bytes.old ≤ length bytes.old }
    ensures has_checksum { HasChecksum bytes.new }
    ensures others { SameOutside 8 bytes.old bytes.new 0 }
{
    let end = 208 + 8 * usize::from(get_u16(bytes, 206));
    let checksum = crc64(u64::MAX, &bytes[8..end]);
    put_u64(bytes, 0, checksum);
}
