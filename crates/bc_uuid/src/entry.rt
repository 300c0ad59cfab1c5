//! One entry of the table.
ghost use Rattle.std.specs.Prelude.{◌≡◌, ℕ, ◌≤◌, length, slice_range, slice_index};

use bc_bytes::{get_u32, get_u64, put_u32, put_u64};

/// The bytes of an entry.
pub const ENTRY: usize = 128;

/// What the table says of a device (`struct uuid_entry` in the kernel's `bcache_ondisk.h`).
#[derive(Clone, Copy, Debug, PartialEq, Eq, Drop)]
pub struct UuidEntry {
    /// The device's uuid; all zero in an entry that isn't used.
    pub uuid: [u8; 16],
    /// Its name, for people.
    pub label: [u8; 32],
    /// When the device was first used with this cache, in seconds; written as 0.
    pub first_reg: u32,
    /// When it was last used with it, in seconds; written as 0.
    pub last_reg: u32,
    /// When it was taken off, in seconds; written as 0.
    pub invalidated: u32,
    /// Whether the device is a volume of the cache itself.
    pub flags: u32,
    /// Such a volume's sectors.
    pub sectors: u64,
    pub ghost uuid_whole: { length uuid ≡ 16 },
    pub ghost label_whole: { length label ≡ 32 },
}

// Writes the uuid and the label, and 0 behind them.
fn put_names(bytes: &mut [u8], uuid: &[u8; 16], label: &[u8; 32])
    requires { length bytes.old ≡ 128 }
    ensures uuid { slice_range bytes.new 0 16 ≡ uuid.now }
    ensures label { slice_range bytes.new 16 48 ≡ label.now }
    ensures rest { (k : ℕ) → 48 ≤ k → slice_index bytes.new k ≡ 0 }
{
    bytes.fill(0);
    bytes[..16].copy_from_slice(uuid);
    bytes[16..48].copy_from_slice(label);
}

impl UuidEntry {
    ghost use Rattle.bc_uuid.specs.Entry.{IsEntry, IsWrittenEntry};

    /// An entry that isn't used.
    pub const UNUSED: UuidEntry = UuidEntry {
        uuid: [0; 16],
        label: [0; 32],
        first_reg: 0,
        last_reg: 0,
        invalidated: 0,
        flags: 0,
        sectors: 0,
    };

    /// What the bytes of an entry say.
    pub fn decode(bytes: &[u8]) -> UuidEntry
        requires { length bytes.now ≡ 128 }
        ensures { IsEntry bytes.now result }
    {
        let mut uuid = [0; 16];
        uuid.copy_from_slice(&bytes[..16]);
        let mut label = [0; 32];
        label.copy_from_slice(&bytes[16..48]);
        UuidEntry {
            uuid,
            label,
            first_reg: get_u32(bytes, 48),
            last_reg: get_u32(bytes, 52),
            invalidated: get_u32(bytes, 56),
            flags: get_u32(bytes, 60),
            sectors: get_u64(bytes, 64),
        }
    }

    /// Writes the bytes of an entry. The times are 0, and so are the bytes that tell nothing.
    pub fn encode(&self, bytes: &mut [u8])
        requires { length bytes.old ≡ 128 }
        ensures { IsWrittenEntry bytes.new self.now }
    {
        put_names(bytes, &self.uuid, &self.label);
        put_u32(bytes, 60, self.flags);
        put_u64(bytes, 64, self.sectors);
    }
}
