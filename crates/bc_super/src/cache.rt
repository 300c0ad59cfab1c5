//! The superblock of a cache device.
ghost use Rattle.std.specs.Prelude.{◌≡◌, ◌↔◌, ◌+◌, ◌*◌, ◌/◌, ◌%◌, ◌^◌, ◌<◌, ◌≤◌, length, IsTrue, IfOk, IfErr, OnOk, OnErr, IsErrOf};
ghost use Rattle.bc_disk.specs.Disk.{IsKept, IsCounted};
ghost use Rattle.bc_super.specs.Super.{fields_in};
ghost use Rattle.bc_super.specs.Cache.{IsUsableCache, IsCacheSuper, IsCacheRefused, FirstLayoutFault, IsFirstBucket, IsLayout, IsInitialised, HasJournal, HasSync, cache_of};
ghost use Rattle.bc_super.specs.Reading.{ReadsCache, OnlyReadsCache, IsCacheCause, call_of};
ghost use Rattle.bc_super.specs.Writing.{IsCacheBytes, IsCacheStored, IsCacheTorn, AreCounted, cache_fields_of};

use crate::error::SuperError;
use crate::fields::{Fields, get_fields, put_fields};
use crate::flags::SET_UP;
use crate::head::{DATA_START, SUPER_BYTES, SUPER_SECTOR, check_head, put_checksum};
use crate::layout::{FEWEST_BUCKETS, is_block, is_bucket, most_buckets};
use crate::list::{lists, put_list};
use crate::store::store;
use bc_disk::disk::{Disk, Failed};

/// What a cache device says of itself.
#[derive(Clone, Copy, Debug, PartialEq, Eq, Drop)]
pub struct CacheSuper {
    /// The version of the format: 0, 3 or 5.
    pub version: u64,
    /// The uuid of the device.
    pub uuid: [u8; 16],
    /// The uuid of its set, which isn't zero.
    pub set_uuid: [u8; 16],
    /// The device's label.
    pub label: [u8; 32],
    /// Bit 0 says that the device was set up, bit 1 that discards are sent, bits 2 to 4 which
    /// bucket is given up first; the other bits are kept.
    pub flags: u64,
    /// A number that is kept.
    pub seq: u64,
    /// How many buckets the device has, from 128 to 1,048,576 and at most 1,024 times the sectors
    /// of one.
    pub nbuckets: u32,
    /// The sectors of a block: 1, 2, 4 or 8.
    pub block: u16,
    /// The sectors of a bucket, a power of two from 64 to 32,768.
    pub bucket: u16,
    /// When the device was last in use, a number that is kept.
    pub last_mount: u32,
    /// The first bucket behind those that are set aside.
    pub first_bucket: u16,
    /// How many buckets the journal has, from the first bucket on: 0, or from 8 to 256 on a device
    /// that was set up.
    pub journal: u16,
}

/// The version of a cache device with feature words.
const FEATURE_VERSION: u64 = 5;

// The fields of a cache device.
fn from_fields(fields: &Fields) -> CacheSuper
    requires { fields.now.nbuckets < 2 ^ 32 }
    ensures { result ≡ cache_of fields.now }
{
    CacheSuper {
        version: fields.version,
        uuid: fields.uuid,
        set_uuid: fields.set_uuid,
        label: fields.label,
        flags: fields.flags,
        seq: fields.seq,
        nbuckets: fields.nbuckets as u32,
        block: fields.block,
        bucket: fields.bucket,
        last_mount: fields.last_mount,
        first_bucket: fields.first_bucket,
        journal: fields.journal,
    }
}

// Whether the flags say that the device was set up.
fn has_sync(flags: u64) -> bool
    ensures { IsTrue result ↔ HasSync flags }
{
    flags & SET_UP == SET_UP
}

// Whether the journal's buckets are those that it may have.
fn has_journal(bytes: &[u8], fields: &Fields) -> bool
    requires { 208 + 8 * fields.now.journal ≤ length bytes.now }
    ensures { IsTrue result ↔ HasJournal bytes.now fields.now }
{
    let (first, count) = (fields.first_bucket, fields.journal);
    let few = has_sync(fields.flags) && 0 < count && count < 8;
    !few && u64::from(first) + u64::from(count) <= fields.nbuckets && lists(bytes, first, count)
}

// Whether the first bucket begins behind what is set aside, and is one of the device's.
fn is_first_bucket(f: &Fields) -> bool
    ensures { IsTrue result ↔ IsFirstBucket f.now.bucket f.now.nbuckets f.now.first_bucket }
{
    let first = u64::from(f.first_bucket);
    DATA_START <= first * u64::from(f.bucket) && first < f.nbuckets
}

// The first fault of how a cache device is divided.
fn check_layout(f: &Fields, sectors: u64) -> Result<(), SuperError>
    ensures ok { OnOk result (IsLayout sectors f.now) }
    ensures refused { IfErr result (λ e. FirstLayoutFault sectors f.now e ⊥) }
{
    if f.version != 0 && f.version != 3 && f.version != FEATURE_VERSION {
        return Err(SuperError::Version(f.version));
    }
    if f.version == FEATURE_VERSION && f.features != [0; 24] {
        return Err(SuperError::Features);
    }
    if !is_block(f.block) {
        return Err(SuperError::Block);
    }
    if !is_bucket(f.bucket) {
        return Err(SuperError::Bucket);
    }
    let bucket = u64::from(f.bucket);
    if f.nbuckets < FEWEST_BUCKETS {
        return Err(SuperError::FewBuckets);
    }
    if f.nbuckets > most_buckets(f.bucket) {
        return Err(SuperError::ManyBuckets);
    }
    if sectors < bucket * f.nbuckets {
        return Err(SuperError::DeviceSmall);
    }
    if f.set_uuid == [0; 16] {
        return Err(SuperError::ZeroUuid);
    }
    if f.devices != 1 || f.device != 0 {
        return Err(SuperError::SetNumber);
    }
    if !is_first_bucket(f) {
        return Err(SuperError::FirstBucket);
    }
    Ok(())
}

// What the bytes say as the superblock of a cache device with so many sectors.
fn decode(bytes: &[u8], sectors: u64) -> Result<CacheSuper, SuperError>
    requires { length bytes.now ≡ 2560 }
    ensures ok { IfOk result (λ s. IsCacheSuper bytes.now sectors s) }
    ensures refused { IfErr result (λ e. IsCacheRefused bytes.now sectors e) }
{
    check_head(bytes)?;
    let fields = get_fields(bytes);
    check_layout(&fields, sectors)?;
    if !has_journal(bytes, &fields) {
        return Err(SuperError::JournalList);
    }
    Ok(from_fields(&fields))
}

/// Reads the superblock of a cache device of version 0, 3 or 5, from sector 8 on. Takes no memory.
///
/// The error is the first of these that holds: `DeviceSmall`, where the device has fewer than 16
/// sectors; `Fault`, where the read failed; `Magic`; `Place`; `JournalList`, where a list of more
/// than 256 items is told; `Checksum`; `Version`; `Features`, where one is set by version 5; `Block`; `Bucket`; `FewBuckets`; `ManyBuckets`;
/// `DeviceSmall`, where the device has fewer sectors than its buckets; `ZeroUuid`; `SetNumber`;
/// `FirstBucket`; `JournalList`. On fewer than 16 sectors no call of the device is made. Each other
/// answer has made one call, which leaves what the device holds as it was.
pub fn read_cache<D: Disk>(disk: &mut D) -> Result<CacheSuper, SuperError>
    ensures small { (D.facts disk.old).sectors < 16 → IsErrOf result SuperError.DeviceSmall }
    ensures untouched { (D.facts disk.old).sectors < 16 → disk.new ≡ disk.old }

    ensures ok { IfOk result (λ s. ReadsCache (D.facts disk.old) s) }
    ensures refused { IfErr result (λ e. IsCacheCause (D.facts disk.old) e) }

    ensures kept { IsKept (D.facts disk.old) (D.facts disk.new) }
    ensures counted { 16 ≤ (D.facts disk.old).sectors
        → IsCounted (call_of result) (D.facts disk.old) (D.facts disk.new) }
{
    let sectors = disk.sectors();
    if sectors < DATA_START {
        return Err(SuperError::DeviceSmall);
    }
    let mut bytes = [0; SUPER_BYTES];
    disk.read(SUPER_SECTOR, &mut bytes)?;
    decode(&bytes, sectors)
}

impl CacheSuper {
    /// Whether the device says that it was set up: bit 0 of its flags.
    pub fn is_set_up(&self) -> bool
        ensures { IsTrue result ↔ HasSync self.now.flags }
    {
        has_sync(self.flags)
    }

    /// Bit 0 of the flags: 1 where the device was set up.
    pub fn sync(&self) -> u64
        ensures { result ≡ self.now.flags % 2 }
    {
        self.flags % 2
    }

    /// Bit 1 of the flags: 1 where discards are sent.
    pub fn discard(&self) -> u64
        ensures { result ≡ self.now.flags / 2 % 2 }
    {
        self.flags / 2 % 2
    }

    /// Bits 2 to 4 of the flags: which bucket is given up first.
    pub fn replacement(&self) -> u64
        ensures { result ≡ self.now.flags / 2 ^ 2 % 2 ^ 3 }
    {
        (self.flags >> 2) & 0b111
    }
}

/// Whether the device was set up: it says so, and has a journal.
pub fn initialised(s: &CacheSuper) -> bool
    ensures { IsTrue result ↔ IsInitialised s.now }
{
    s.is_set_up() && s.journal > 0
}

// The fields of a cache device as they are written.
fn to_fields(s: &CacheSuper) -> Fields
    ensures { result ≡ cache_fields_of s.now }
{
    Fields {
        version: s.version,
        uuid: s.uuid,
        set_uuid: s.set_uuid,
        label: s.label,
        flags: s.flags,
        seq: s.seq,
        features: [0; 24],
        nbuckets: u64::from(s.nbuckets),
        block: s.block,
        bucket: s.bucket,
        devices: 1,
        device: 0,
        last_mount: s.last_mount,
        first_bucket: s.first_bucket,
        journal: s.journal,
    }
}

// The sectors that the superblock of a cache device with the longest list needs.
fn encode(s: &CacheSuper) -> [u8; SUPER_BYTES]
    requires { s.now.journal ≤ 256 }
    ensures { IsCacheBytes result s.now }
{
    let mut bytes = [0; SUPER_BYTES];
    put_fields(&mut bytes, &to_fields(s));
    put_list(&mut bytes, s.first_bucket, s.journal);
    put_checksum(&mut bytes);
    bytes
}

/// Writes the superblock of a cache device and makes it stable: first sectors 9 to 12, which have
/// what is left of the list, a barrier, then sector 8, and a barrier. No other sector is written.
/// The set has this one device, and the list has the buckets of the journal. What the superblock
/// doesn't tell is written as zero. Takes no memory.
///
/// After `Ok` it is what is read, and what the device holds is all that a crash may leave. After
/// `Failed` each of these sectors has its old value or the new one, and so a crash may leave it;
/// where sector 8 may have the new one, the others have it too.
pub fn write_cache<D: Disk>(disk: &mut D, s: &CacheSuper) -> Result<(), Failed>
    requires { IsUsableCache (D.facts disk.old).sectors s.now }
    ensures ok { OnOk result (IsCacheStored s.now (D.facts disk.old) (D.facts disk.new)) }
    ensures failed { OnErr result (IsCacheTorn s.now (D.facts disk.old) (D.facts disk.new)) }
    ensures reads { OnOk result (OnlyReadsCache (D.facts disk.new) s.now) }
    ensures counted { AreCounted 4 result (D.facts disk.old) (D.facts disk.new) }
{
    let bytes = encode(s);
    let (first, rest) = bytes.split_at(512);
    store(disk, SUPER_SECTOR + 1, rest)?;
    store(disk, SUPER_SECTOR, first)
}
