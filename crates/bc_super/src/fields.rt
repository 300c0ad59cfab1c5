//! The fields of a superblock as they stand in its bytes.
ghost use Rattle.std.specs.Prelude.{◌≡◌, ◌+◌, ◌≤◌, ℕ, length, slice_range};
ghost use Rattle.bc_bytes.specs.Fields.{SameOutside};
ghost use Rattle.bc_super.specs.Super.{HasMagic, fields_in, place_in};
ghost use Rattle.bc_super.specs.Writing.{HasNames, HasLayout};

use crate::head::{MAGIC, SUPER_SECTOR};
use bc_bytes::{get_u16, get_u32, get_u64, put_u16, put_u32, put_u64};

/// The fields of a superblock, those of `struct cache_sb_disk` in the kernel's `bcache_ondisk.h`
/// but for its checksum, its magic, its own place and its list of journal buckets.
#[derive(Drop)]
pub struct Fields {
    /// The version of the format.
    pub version: u64,
    /// The uuid of the device.
    pub uuid: [u8; 16],
    /// The uuid of the set that the device belongs to.
    pub set_uuid: [u8; 16],
    /// The device's label.
    pub label: [u8; 32],
    /// The flags, of another meaning for each kind of device.
    pub flags: u64,
    /// How often the superblock was written.
    pub seq: u64,
    /// The feature words, which are looked at by versions 5 and 6 alone.
    pub features: [u8; 24],
    /// How many buckets a cache device has; the sector at which the data of a backing device of
    /// version 4 or 6 begins.
    pub nbuckets: u64,
    /// The sectors of a block.
    pub block: u16,
    /// The sectors of a bucket.
    pub bucket: u16,
    /// How many cache devices the set has.
    pub devices: u16,
    /// The number of this device in its set.
    pub device: u16,
    /// When the device was last in use, in seconds.
    pub last_mount: u32,
    /// The first bucket that isn't set aside.
    pub first_bucket: u16,
    /// How many buckets the journal has.
    pub journal: u16,
}

// The bytes of a part.
fn part<const N: usize>(bytes: &[u8], at: usize) -> [u8; N]
    requires { at + N ≤ length bytes.now }
    ensures { result ≡ slice_range bytes.now at (at + N) }
{
    let mut part = [0; N];
    part.copy_from_slice(&bytes[at..at + N]);
    part
}

/// Reads the fields. There are at least 208 bytes.
pub(crate) fn get_fields(bytes: &[u8]) -> Fields
    requires { 208 ≤ length bytes.now }
    ensures { result ≡ fields_in bytes.now }
{
    Fields {
        version: get_u64(bytes, 16),
        uuid: part(bytes, 40),
        set_uuid: part(bytes, 56),
        label: part(bytes, 72),
        flags: get_u64(bytes, 104),
        seq: get_u64(bytes, 112),
        features: part(bytes, 120),
        nbuckets: get_u64(bytes, 184),
        block: get_u16(bytes, 192),
        bucket: get_u16(bytes, 194),
        devices: get_u16(bytes, 196),
        device: get_u16(bytes, 198),
        last_mount: get_u32(bytes, 200),
        first_bucket: get_u16(bytes, 204),
        journal: get_u16(bytes, 206),
    }
}

// Puts a part in the place of the bytes from `at` on.
fn put_part(bytes: &mut [u8], at: usize, part: &[u8])
    requires { at + length part.now ≤ length bytes.old }
    ensures part { slice_range bytes.new at (at + length part.now) ≡ part.now }
    ensures others { SameOutside (length part.now) bytes.old bytes.new at }
{
    bytes[at..at + part.len()].copy_from_slice(part);
}

// Writes the magic, the place, and the fields up to the feature words.
fn put_names(bytes: &mut [u8], fields: &Fields)
    requires { 208 ≤ length bytes.old }
    ensures names { HasNames bytes.new fields.now }
    ensures others { SameOutside 112 bytes.old bytes.new 8 }
{
    put_u64(bytes, 8, SUPER_SECTOR);
    put_u64(bytes, 16, fields.version);
    put_part(bytes, 24, &MAGIC);
    put_part(bytes, 40, &fields.uuid);
    put_part(bytes, 56, &fields.set_uuid);
    put_part(bytes, 72, &fields.label);
    put_u64(bytes, 104, fields.flags);
    put_u64(bytes, 112, fields.seq);
}

// Writes the fields behind the pad.
fn put_layout(bytes: &mut [u8], fields: &Fields)
    requires { 208 ≤ length bytes.old }
    ensures layout { HasLayout bytes.new fields.now }
    ensures others { SameOutside 24 bytes.old bytes.new 184 }
{
    put_u64(bytes, 184, fields.nbuckets);
    put_u16(bytes, 192, fields.block);
    put_u16(bytes, 194, fields.bucket);
    put_u16(bytes, 196, fields.devices);
    put_u16(bytes, 198, fields.device);
    put_u32(bytes, 200, fields.last_mount);
    put_u16(bytes, 204, fields.first_bucket);
    put_u16(bytes, 206, fields.journal);
}

/// Writes the magic, the place and the fields. There are at least 208 bytes, and those of the
/// checksum, of the feature words and the pad, and of the list stay: the feature words stand there.
pub(crate) fn put_fields(bytes: &mut [u8], fields: &Fields)
    requires room { 208 ≤ length bytes.old }
    requires features { slice_range bytes.old 120 144 ≡ fields.now.features }
    ensures has_magic { HasMagic bytes.new }
    ensures place { place_in bytes.new ≡ 8 }
    ensures fields { fields_in bytes.new ≡ fields.now }
    ensures pad { slice_range bytes.new 120 184 ≡ slice_range bytes.old 120 184 }
    ensures rest { (i j : ℕ) → 208 ≤ i → slice_range bytes.new i j ≡ slice_range bytes.old i j }
{
    put_names(bytes, fields);
    put_layout(bytes, fields);
}
