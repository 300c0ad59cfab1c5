//! Reads entries.
ghost use Rattle.std.specs.Prelude.{◌≡◌, ◌⊎◌, ◌↔◌, IsTrue, IfOk, IfErr, MatchResult};
ghost use Rattle.bc_jset.specs.declared.entry.JEntry.{JEntry};
ghost use Rattle.bc_jset.specs.declared.error.JsetError.{JsetError};
ghost use Rattle.bc_jset.specs.EntryBytes.{IsLevel, IsEntry, IsRefused, IsCause, bytes_of};

use crate::entry::{HEADER, JEntry};
use crate::error::JsetError;
use crate::header::whole_count;
use bc_bytes::{get_u16, get_u64};
use bc_keys::{are_extents, read_key, read_keys};
use std::alloc::Global;

/// Whether a root may have this level.
fn is_level(level: u16) -> bool
    ensures { IsTrue result ↔ IsLevel level }
{
    level == 1 || level == 2
}

/// The entry at the front of the bytes, or the first reason why there is none.
fn entry_at_front(alloc: Global, bytes: &[u8], magic: u64) -> Result<JEntry, JsetError>
    ensures found { IfOk result (IsEntry magic bytes.now) }
    ensures refused { IfErr result (IsCause magic bytes.now) }
{
    let count = whole_count(bytes, magic)?;
    let level = get_u16(bytes, 168);
    if !is_level(level) {
        return Err(JsetError::Level);
    }
    let (uuid_bucket, _) = read_key(bytes, 40, 8)?;
    let (root, _) = read_key(bytes, 104, 8)?;
    let keys = read_keys(alloc, bytes, HEADER, count)?;
    if !are_extents(keys.as_slice()) {
        return Err(JsetError::Key);
    }
    Ok(JEntry {
        seq: get_u64(bytes, 16),
        last_seq: get_u64(bytes, 32),
        uuid_bucket,
        root,
        level,
        prio: get_u64(bytes, 176),
        keys,
    })
}

/// Reads the entry at the front of the bytes, and says how many bytes it takes; what stands behind
/// it doesn't matter.
///
/// `magic` is the first word of the uuid of the cache set. Memory is taken for the keys alone, for
/// half as many as there are words. The refusal is the first by the order of `JsetError`.
pub fn read_entry(alloc: Global, bytes: &[u8], magic: u64) -> Result<(JEntry, usize), JsetError>
    // What is read is spelled so, and what is spelled so is read.
    ensures found { IfOk result (λ r. IsEntry magic bytes.now r.0 × (r.1 ≡ bytes_of r.0)) }
    ensures only { (e : JEntry) → IsEntry magic bytes.now e
        → MatchResult result (λ r. (r.0 ≡ e) × (r.1 ≡ bytes_of e)) (λ f. f ≡ JsetError.Memory) }
    // A refusal has its reason, and where there is a reason the bytes are refused for it.
    ensures refused { IfErr result (IsCause magic bytes.now) }
    ensures exact { (f : JsetError) → IsRefused magic bytes.now f
        → (result ≡ Err f) ⊎ (result ≡ Err JsetError.Memory) }
{
    match entry_at_front(alloc, bytes, magic) {
        Ok(entry) => {
            let length = entry.bytes();
            Ok((entry, length))
        }
        Err(error) => Err(error),
    }
}
