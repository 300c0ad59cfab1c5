//! Reads sets.
ghost use Rattle.std.specs.Prelude.{◌≡◌, ◌⊎◌, IfOk, IfErr, MatchResult};
ghost use Rattle.bc_set.specs.declared.error.SetError.{SetError};
ghost use Rattle.bc_set.specs.declared.set.Set.{Set};
ghost use Rattle.bc_set.specs.SetBytes.{IsSet, IsRefused, IsCause};

use crate::error::SetError;
use crate::header::read_header;
use crate::order::{are_in_order, are_of_kind};
use crate::set::{HEADER, Set, SetKind};
use bc_keys::read_keys;
use std::alloc::Global;

/// The set at the front of the bytes, or the first reason why there is none.
fn set_at_front(
    alloc: Global,
    bytes: &[u8],
    start: u64,
    magic: u64,
    kind: SetKind,
) -> Result<Set, SetError>
    ensures found { IfOk result (IsSet start magic kind bytes.now) }
    ensures refused { IfErr result (IsCause start magic kind bytes.now) }
{
    let header = read_header(bytes, start, magic)?;
    let keys = read_keys(alloc, bytes, HEADER, header.count)?;
    if !are_of_kind(kind, keys.as_slice()) {
        return Err(SetError::Key);
    }
    if !are_in_order(kind, keys.as_slice()) {
        return Err(SetError::Order);
    }
    Ok(Set {
        seq: header.seq,
        version: header.version,
        keys,
    })
}

/// Reads the set at the front of the bytes; what stands behind it doesn't matter.
///
/// `start` is what the checksum of version 1 starts from: the first pointer's word of the key that
/// points to the node. `magic` is the first word of the uuid of the cache set. Memory is taken for the keys alone,
/// for half as many as there are words. The refusal is the first by the order of `SetError`.
pub fn read_set(
    alloc: Global,
    bytes: &[u8],
    start: u64,
    magic: u64,
    kind: SetKind,
) -> Result<Set, SetError>
    // What is read is spelled so, and what is spelled so is read.
    ensures found { IfOk result (IsSet start magic kind bytes.now) }
    ensures only { (s : Set) → IsSet start magic kind bytes.now s
        → MatchResult result (λ r. r ≡ s) (λ e. e ≡ SetError.Memory) }
    // A refusal has its reason, and where there is a reason the bytes are refused for it.
    ensures refused { IfErr result (IsCause start magic kind bytes.now) }
    ensures exact { (e : SetError) → IsRefused start magic kind bytes.now e
        → (result ≡ Err e) ⊎ (result ≡ Err SetError.Memory) }
{
    set_at_front(alloc, bytes, start, magic, kind)
}
