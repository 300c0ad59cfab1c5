//! The header of an entry.
ghost use Rattle.std.specs.Prelude.{◌≡◌, IsOk, IfOk, IfErr};
ghost use Rattle.bc_jset.specs.EntryBytes.{IsWhole, IsRefused, count_in};

use crate::entry::{HEADER, MAGIC, MOST_WORDS, VERSION};
use crate::error::JsetError;
use bc_bytes::{crc64, get_u32, get_u64};

/// How many words an entry has that is whole. Its level and its keys aren't tested.
pub fn whole_count(bytes: &[u8], magic: u64) -> Result<usize, JsetError>
    ensures whole { IfOk result (λ _. IsWhole magic bytes.now) }
    ensures count { IfOk result (λ n. n ≡ count_in bytes.now) }
    ensures refused { IfErr result (IsRefused magic bytes.now) }
{
    if bytes.len() < HEADER {
        return Err(JsetError::Short);
    }
    if get_u64(bytes, 8) != magic ^ MAGIC {
        return Err(JsetError::Magic);
    }
    if get_u32(bytes, 24) != VERSION {
        return Err(JsetError::Version);
    }
    let count = get_u32(bytes, 28) as usize;
    let end = HEADER + 8 * count;
    if count > MOST_WORDS || bytes.len() < end {
        return Err(JsetError::Short);
    }
    if get_u64(bytes, 0) != crc64(u64::MAX, &bytes[8..end]) {
        return Err(JsetError::Checksum);
    }
    Ok(count)
}
