//! The two records, and reading them.
ghost use Rattle.std.specs.Prelude.{◌≡◌, ◌+◌, ◌*◌, ◌<◌, ◌≤◌, length, IfOk};
ghost use Rattle.bc_jset.specs.declared.entry.JEntry.{JEntry};
ghost use Rattle.bc_jset.specs.EntryBytes.{IsEntry};
ghost use Rattle.bc_set.specs.declared.set.Set.{Set};
ghost use Rattle.bc_set.specs.declared.set.SetKind.{SetKind};
ghost use Rattle.bc_set.specs.SetBytes.{IsSet};

use bc_bytes::{crc64, put_u16, put_u32, put_u64};
use bc_jset::{JsetError, read_entry};
use bc_set::{SetError, SetKind, read_set};
use std::alloc::{AllocError, Global};

/// The first word of the cache set's uuid.
const MAGIC: u64 = 1;

/// The word of the node's pointer, from which its sets' checksums start.
const START: u64 = 0x80003;

/// The words of a key with one pointer.
const POINTER: u64 = 0x9000_0000_0000_0000;

/// How many keys of three words the entry has, and the set.
const ENTRY_KEYS: usize = 1355;

const SET_KEYS: usize = 10_921;

// Writes the words of so many extents of eight dirty sectors from a place on, one behind the other.
fn put_extents(bytes: &mut [u8], place: usize, keys: usize)
    requires few { keys ≤ 100000 }
    requires room { place + 24 * keys ≤ length bytes.old }
{
    for i in 0..keys {
        let at = place + 24 * i;
        put_u64(bytes, at, POINTER | (1 << 36) | (8 << 20));
        put_u64(bytes, at + 8, 8 * (i as u64 + 1));
        put_u64(bytes, at + 16, (2048 + 8 * i as u64) << 8);
    }
}

/// The bytes of an entry of 64 sectors.
pub fn entry_of_keys(alloc: Global) -> Result<Vec<u8>, AllocError> {
    let mut bytes = vec![in alloc; 0u8; 240 + 24 * ENTRY_KEYS]?;
    put_u64(&mut bytes, 8, MAGIC ^ 0x2452_35c1_a362_5032);
    put_u64(&mut bytes, 16, 7);
    put_u32(&mut bytes, 24, 1);
    put_u32(&mut bytes, 28, 3 * ENTRY_KEYS as u32);
    put_u64(&mut bytes, 32, 7);
    put_u64(&mut bytes, 40, POINTER | (64 << 20));
    put_u64(&mut bytes, 104, POINTER | (64 << 20));
    put_u16(&mut bytes, 168, 1);
    put_extents(&mut bytes, 240, ENTRY_KEYS);
    let checksum = crc64(u64::MAX, &bytes[8..]);
    put_u64(&mut bytes, 0, checksum);
    Ok(bytes)
}

/// The bytes of a set that fills a node of 512 sectors.
pub fn set_of_keys(alloc: Global) -> Result<Vec<u8>, AllocError> {
    let mut bytes = vec![in alloc; 0u8; 32 + 24 * SET_KEYS]?;
    put_u64(&mut bytes, 8, MAGIC ^ 0x9013_5c78_b99e_07f5);
    put_u64(&mut bytes, 16, 65_537);
    put_u32(&mut bytes, 24, 1);
    put_u32(&mut bytes, 28, 3 * SET_KEYS as u32);
    put_extents(&mut bytes, 32, SET_KEYS);
    let checksum = crc64(START, &bytes[8..]);
    put_u64(&mut bytes, 0, checksum);
    Ok(bytes)
}

/// Reads the entry so many times, and says how many keys the last one had.
pub fn read_entries(alloc: Global, bytes: &[u8], rounds: u32) -> Result<usize, JsetError>
    ensures { IfOk result (λ keys. 0 < rounds → (e : JEntry)
        × IsEntry 1 bytes.now e × (keys ≡ length e.keys)) }
{
    let mut keys = 0;
    for _round in 0..rounds {
        let (entry, _) = read_entry(alloc, bytes, MAGIC)?;
        keys = entry.keys.len();
    }
    Ok(keys)
}

/// Reads the set so many times, and says how many keys the last one had.
pub fn read_sets(alloc: Global, bytes: &[u8], rounds: u32) -> Result<usize, SetError>
    ensures { IfOk result (λ keys. 0 < rounds → (s : Set)
        × IsSet 0x80003 1 SetKind.Extents bytes.now s × (keys ≡ length s.keys)) }
{
    let mut keys = 0;
    for _round in 0..rounds {
        let set = read_set(alloc, bytes, START, MAGIC, SetKind::Extents)?;
        keys = set.keys.len();
    }
    Ok(keys)
}
