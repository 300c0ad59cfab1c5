//! The superblock of a backing device.
ghost use Rattle.std.specs.Prelude.{◌≡◌, ◌↔◌, ◌<◌, ◌≤◌, length, IfOk, IfErr, OnOk, OnErr, IsErrOf, IsTrue};
ghost use Rattle.bc_super.specs.Division.{IsPassThrough};
ghost use Rattle.bc_disk.specs.Disk.{IsKept, IsCounted};
ghost use Rattle.bc_super.specs.Super.{IsMode, IsState, IsUsable, IsBackingSuper, IsRefused, backing_of, data_sectors, fields_in, mode_number, state_number};
ghost use Rattle.bc_super.specs.Reading.{ReadsSuper, OnlyReads, IsCause, call_of};
ghost use Rattle.bc_super.specs.Writing.{IsBackingSector, IsBackingStored, IsBackingTorn, AreCounted, fields_of};

use crate::error::SuperError;
use crate::fields::{Fields, get_fields, put_fields};
use crate::head::{DATA_START, SUPER_BYTES, SUPER_SECTOR, check_head, put_checksum};
use crate::mode::mode_in;
use crate::state::BackingState;
use crate::store::store;
use bc_disk::disk::{Disk, Failed};
use bc_mode::Mode;

/// What a backing device says of itself.
#[derive(Clone, Copy, Debug, PartialEq, Eq, Drop)]
pub struct BackingSuper {
    /// The version of the format: 1, 4 or 6.
    pub version: u64,
    /// The uuid of the device.
    pub uuid: [u8; 16],
    /// The uuid of the set whose cache stands before the device.
    pub set_uuid: [u8; 16],
    /// The device's label.
    pub label: [u8; 32],
    /// The mode in bits 0 to 3, the state in bits 61 and 62; the other bits are kept.
    pub flags: u64,
    /// A number that is kept.
    pub seq: u64,
    /// The sectors of a block, a number that is kept.
    pub block: u16,
    /// When the device was last in use, a number that is kept.
    pub last_mount: u32,
    /// The sector of the device at which the data begins, 16 by version 1.
    pub data_offset: u64,
}

/// The most sectors that a backing device's data is taken to have.
const MOST_SECTORS: u64 = 1 << 40;

/// The version of a backing device whose data begins at `DATA_START`.
const FIXED_VERSION: u64 = 1;

/// The version of a backing device that tells where its data begins.
const OFFSET_VERSION: u64 = 4;

/// The same with feature words.
const FEATURE_VERSION: u64 = 6;

impl BackingSuper {
    /// How requests are to use a cache. A number above 3 counts as writethrough.
    pub fn mode(&self) -> Mode
        ensures { IsMode (mode_number self.now.flags) result }
    {
        mode_in(self.flags)
    }

    /// Whether a cache may have data that the device lacks.
    pub fn state(&self) -> BackingState
        ensures { IsState (state_number self.now.flags) result }
    {
        BackingState::from_flags(self.flags)
    }

    /// Whether the device asks for no cache, so that it serves alone.
    pub fn is_pass_through(&self) -> bool
        ensures { IsTrue result ↔ IsPassThrough self.now }
    {
        self.mode() == Mode::None && self.state() == BackingState::None
    }

    /// How many sectors of a device with so many have data, of which the first 2^40 count.
    pub fn data_sectors(&self, sectors: u64) -> u64
        ensures { result ≡ data_sectors sectors self.now }
    {
        sectors.saturating_sub(self.data_offset).min(MOST_SECTORS)
    }
}

// The fields of a backing device.
fn from_fields(fields: &Fields) -> BackingSuper
    ensures { result ≡ backing_of fields.now }
{
    BackingSuper {
        version: fields.version,
        uuid: fields.uuid,
        set_uuid: fields.set_uuid,
        label: fields.label,
        flags: fields.flags,
        seq: fields.seq,
        block: fields.block,
        last_mount: fields.last_mount,
        data_offset: if fields.version == FIXED_VERSION {
            DATA_START
        } else {
            fields.nbuckets
        },
    }
}

// What the bytes say as the superblock of a backing device with so many sectors.
fn decode(bytes: &[u8], sectors: u64) -> Result<BackingSuper, SuperError>
    requires { length bytes.now ≡ 2560 }
    ensures ok { IfOk result (λ s. IsBackingSuper bytes.now sectors s) }
    ensures refused { IfErr result (λ e. IsRefused bytes.now sectors e) }
{
    check_head(bytes)?;
    let fields = get_fields(bytes);
    let s = from_fields(&fields);
    if s.version != FIXED_VERSION && s.version != OFFSET_VERSION && s.version != FEATURE_VERSION {
        return Err(SuperError::Version(s.version));
    }
    if s.version == FEATURE_VERSION && fields.features != [0; 24] {
        return Err(SuperError::Features);
    }
    if s.data_offset < DATA_START || sectors <= s.data_offset {
        return Err(SuperError::DataOffset);
    }
    match s.state() {
        BackingState::Stale => Err(SuperError::Stale),
        _ => Ok(s),
    }
}

/// Reads the superblock of a backing device of version 1, 4 or 6, from sector 8 on. Takes no memory.
///
/// The error is the first of these that holds: `DeviceSmall`, where the device has fewer than 16
/// sectors; `Fault`, where the read failed; `Magic`; `Place`; `JournalList`, where a list of more
/// than 256 items is told; `Checksum`; `Version`; `Features`, where one is set by version 6;
/// `DataOffset`, where data would begin before sector 16 or at none of the device's sectors; `Stale`. `DeviceSmall` is answered without a call
/// of the device. Each other answer has made one call, which leaves what the device holds as it
/// was.
pub fn read_backing<D: Disk>(disk: &mut D) -> Result<BackingSuper, SuperError>
    ensures small { IsErrOf result SuperError.DeviceSmall ↔ ((D.facts disk.old).sectors < 16) }
    ensures untouched { (D.facts disk.old).sectors < 16 → disk.new ≡ disk.old }

    ensures ok { IfOk result (λ s. ReadsSuper (D.facts disk.old) s) }
    ensures refused { IfErr result (λ e. IsCause (D.facts disk.old) e) }

    ensures kept { IsKept (D.facts disk.old) (D.facts disk.new) }
    ensures counted { 16 ≤ (D.facts disk.old).sectors
        → IsCounted (call_of result) (D.facts disk.old) (D.facts disk.new) }
{
    let sectors = disk.sectors();
    if sectors < DATA_START {
        return Err(SuperError::DeviceSmall);
    }
    let mut bytes = [0; SUPER_BYTES];
    disk.read(SUPER_SECTOR, &mut bytes)?;
    decode(&bytes, sectors)
}

// The fields of a backing device as they are written.
fn to_fields(s: &BackingSuper) -> Fields
    ensures { result ≡ fields_of s.now }
{
    Fields {
        version: s.version,
        uuid: s.uuid,
        set_uuid: s.set_uuid,
        label: s.label,
        flags: s.flags,
        seq: s.seq,
        features: [0; 24],
        nbuckets: if s.version == FIXED_VERSION {
            0
        } else {
            s.data_offset
        },
        block: s.block,
        bucket: 0,
        devices: 0,
        device: 0,
        last_mount: s.last_mount,
        first_bucket: 0,
        journal: 0,
    }
}

// The one sector that the superblock of a backing device needs.
fn encode(s: &BackingSuper) -> [u8; 512]
    ensures { IsBackingSector result s.now }
{
    let mut bytes = [0; 512];
    put_fields(&mut bytes, &to_fields(s));
    put_checksum(&mut bytes);
    bytes
}

/// Writes the superblock of a backing device of version 1, 4 or 6 and makes it stable. It has no list,
/// so it takes sector 8 alone, and a crash leaves it whole or as it was; no other sector is
/// written. What it doesn't tell is written as zero. Takes no memory.
///
/// After `Ok` it is what is read, and what the device holds is all that a crash may leave. After
/// `Failed` sector 8 has its old value or the new one, and a crash may leave either.
pub fn write_backing<D: Disk>(disk: &mut D, s: &BackingSuper) -> Result<(), Failed>
    requires { IsUsable (D.facts disk.old).sectors s.now }
    ensures ok { OnOk result (IsBackingStored s.now (D.facts disk.old) (D.facts disk.new)) }
    ensures failed { OnErr result (IsBackingTorn s.now (D.facts disk.old) (D.facts disk.new)) }
    ensures reads { OnOk result (OnlyReads (D.facts disk.new) s.now) }
    ensures counted { AreCounted 2 result (D.facts disk.old) (D.facts disk.new) }
{
    store(disk, SUPER_SECTOR, &encode(s))
}
