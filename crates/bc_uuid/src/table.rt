//! The table.
ghost use Rattle.std.specs.Prelude.{◌≡◌, ◌≢◌, ℕ, ◌*◌, ◌<◌, ◌≤◌, length, replicate, slice_index_or, map, All, IfOk, IfErr, OnOk, OnErr, IfSome, IfNone};
ghost use Rattle.bc_disk.specs.Disk.{IsKept, IsCounted};
ghost use Rattle.bc_uuid.specs.declared.entry.UuidEntry.{UuidEntry};
ghost use Rattle.bc_uuid.specs.Entry.{without_times};
ghost use Rattle.bc_uuid.specs.Table.{entries_in, IsDevice, HoldsEntries, AreWritten, IsTable, CallsUntil, WritesTable, good};

use crate::entry::{ENTRY, UuidEntry};
use crate::error::UuidError;
use bc_disk::disk::{Disk, Failed};
use bc_disk::geometry::Geometry;
use std::alloc::{AllocError, Global};
use std::marker::Model;

/// The devices that a cache knows, each by the place of its entry. Entry 0 is the backing device's. A
/// table has 131,072 entries at most, as the largest bucket.
#[derive(Drop)]
pub struct Uuids {
    entries: Vec<UuidEntry>,
}

impl Model for Uuids {
    ghost use Rattle.std.specs.Prelude.{◌≤◌, List, vec_len};
    ghost use Rattle.bc_uuid.specs.declared.entry.UuidEntry.{UuidEntry};

    ghost Value = { List UuidEntry };

    ghost view = { λ t. t.entries.items };

    ghost invariant = { λ t. vec_len t.entries ≤ 131072 };
}

impl Uuids {
    /// A table of one device, with as many entries as fill a bucket. Each byte but those of its uuid
    /// and its label is 0.
    pub fn new(
        alloc: Global,
        g: &Geometry,
        uuid: &[u8; 16],
        label: &[u8; 32],
    ) -> Result<Uuids, AllocError>
        ensures many { IfOk result (λ t. length t ≡ entries_in g.now) }
        ensures first { IfOk result (λ t. (d : UuidEntry)
            → IsDevice uuid.now label.now (slice_index_or t 0 d)) }
        ensures others { IfOk result (λ t. (i : ℕ) (d : UuidEntry) → 0 < i → i < length t
            → IsDevice (replicate 16 0) (replicate 32 0) (slice_index_or t i d)) }
    {
        let mut entries = vec![in alloc; UuidEntry::UNUSED; 4 * g.bucket as usize]?;
        entries[0] = UuidEntry {
            uuid: *uuid,
            label: *label,
            first_reg: 0,
            last_reg: 0,
            invalidated: 0,
            flags: 0,
            sectors: 0,
        };
        Ok(Uuids { entries })
    }

    /// The entries, in order.
    pub fn entries(&self) -> &[UuidEntry]
        ensures { result.now ≡ self.now }
    {
        &self.entries
    }
}

// What the bytes of a table say.
fn decode_all(alloc: Global, bytes: &[u8], count: usize) -> Result<Uuids, UuidError>
    requires few { count ≤ 131072 }
    requires whole { 128 * count ≤ length bytes.now }
    ensures many { IfOk result (λ t. length t ≡ count) }
    ensures holds { IfOk result (λ t. HoldsEntries bytes.now t) }
    ensures memory { IfErr result (λ e. e ≡ UuidError.Memory) }
{
    let mut entries = Vec::new(alloc);
    for i in 0..count {
        let at = ENTRY * i;
        entries.push(UuidEntry::decode(&bytes[at..at + ENTRY]))?;
    }
    Ok(Uuids { entries })
}

// Writes the bytes of a table.
fn encode_all(entries: &[UuidEntry], bytes: &mut [u8])
    requires { 128 * length entries.now ≤ length bytes.old }
    ensures { AreWritten bytes.new entries.now }
{
    for (i, entry) in entries.iter().enumerate() {
        let at = ENTRY * i;
        entry.encode(&mut bytes[at..at + ENTRY]);
    }
}

/// The least place at which the table has this uuid.
pub fn find(t: &Uuids, uuid: &[u8; 16]) -> Option<u32>
    ensures found { IfSome result (λ i. (i < length t.now)
        × ((d : UuidEntry) → (slice_index_or t.now i d).uuid ≡ uuid.now)) }
    ensures least { IfSome result (λ i. (k : ℕ) (d : UuidEntry) → k < i
        → (slice_index_or t.now k d).uuid ≢ uuid.now) }
    ensures none { IfNone result (All (λ e. e.uuid ≢ uuid.now) t.now) }
{
    for (i, entry) in t.entries.iter().enumerate() {
        if entry.uuid == *uuid {
            return Some(i as u32);
        }
    }
    None
}

/// Reads the table that stands in a bucket. What the device holds stays as it was.
pub fn read<D: Disk>(
    alloc: Global,
    disk: &mut D,
    g: &Geometry,
    bucket: u32,
) -> Result<Uuids, UuidError>
    requires room { g.now.bucket * g.now.nbuckets ≤ (D.facts disk.old).sectors }
    requires bucket { bucket < g.now.nbuckets }
    ensures table { IfOk result (λ t. IsTable g.now (D.facts disk.old) bucket t) }
    ensures kept { IsKept (D.facts disk.old) (D.facts disk.new) }
    ensures read { OnOk result (IsCounted good (D.facts disk.old) (D.facts disk.new)) }
    ensures failed { IfErr result (λ e. CallsUntil e (D.facts disk.old) (D.facts disk.new)) }
{
    let mut bytes = vec![in alloc; 0u8; 512 * g.bucket as usize]?;
    disk.read(u64::from(g.bucket) * u64::from(bucket), &mut bytes)?;
    decode_all(alloc, &bytes, 4 * g.bucket as usize)
}

/// Writes the table into a bucket, by one call, with times of 0. Takes no memory; what the buffer
/// holds afterwards isn't said.
pub fn write<D: Disk>(
    t: &Uuids,
    disk: &mut D,
    g: &Geometry,
    bucket: u32,
    buffer: &mut [u8],
) -> Result<(), Failed>
    requires room { g.now.bucket * g.now.nbuckets ≤ (D.facts disk.old).sectors }
    requires bucket { bucket < g.now.nbuckets }
    requires many { length t.now ≡ entries_in g.now }
    requires whole { length buffer.old ≡ 512 * g.now.bucket }
    ensures written { WritesTable g.now bucket t.now result (D.facts disk.old) (D.facts disk.new) }
    ensures table { OnOk result
        (IsTable g.now (D.facts disk.new) bucket (map without_times t.now)) }
{
    encode_all(&t.entries, buffer);
    disk.write(u64::from(g.bucket) * u64::from(bucket), buffer)
}
