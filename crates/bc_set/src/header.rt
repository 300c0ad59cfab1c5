//! The header of a set.
ghost use Rattle.std.specs.Prelude.{◌≡◌, IfOk, IfErr};
ghost use Rattle.bc_bytes.specs.Fields.{number_at};
ghost use Rattle.bc_set.specs.declared.set.SetKind.{SetKind};
ghost use Rattle.bc_set.specs.SetBytes.{IsWhole, IsRefused, count_in, version_in, start_by};

use crate::error::SetError;
use crate::set::{HEADER, MAGIC, VERSION};
use bc_bytes::{crc64, get_u32, get_u64};

/// What the header says of a set that is whole.
#[derive(Clone, Copy, Drop)]
pub struct Header {
    /// The number that all sets of a node have in common.
    pub seq: u64,
    /// The version of the format.
    pub version: u32,
    /// The number of words.
    pub count: usize,
}

/// What the checksum of a set begins with, by its version.
fn start_by(version: u32, start: u64) -> u64
    ensures { result ≡ start_by version start }
{
    if version == 0 { u64::MAX } else { start }
}

/// Reads the header, and tests all that doesn't depend on the keys.
pub fn read_header(bytes: &[u8], start: u64, magic: u64) -> Result<Header, SetError>
    ensures whole { IfOk result (λ _. IsWhole start magic bytes.now) }
    ensures seq { IfOk result (λ h. h.seq ≡ number_at 8 bytes.now 16) }
    ensures version { IfOk result (λ h. h.version ≡ version_in bytes.now) }
    ensures count { IfOk result (λ h. h.count ≡ count_in bytes.now) }
    ensures refused { (kind : SetKind) → IfErr result (IsRefused start magic kind bytes.now) }
{
    if bytes.len() < HEADER {
        return Err(SetError::Short);
    }
    if get_u64(bytes, 8) != magic ^ MAGIC {
        return Err(SetError::Magic);
    }
    let version = get_u32(bytes, 24);
    if version > VERSION {
        return Err(SetError::Version);
    }
    let count = get_u32(bytes, 28) as usize;
    let end = HEADER + 8 * count;
    if bytes.len() < end {
        return Err(SetError::Short);
    }
    if get_u64(bytes, 0) != crc64(start_by(version, start), &bytes[8..end]) {
        return Err(SetError::Checksum);
    }
    Ok(Header {
        seq: get_u64(bytes, 16),
        version,
        count,
    })
}
