//! One set of a chain.
ghost use Rattle.std.specs.Prelude.{◌≡◌, ◌⊎◌, ◌^◌, ℕ, ◌+◌, ◌*◌, ◌<◌, ◌≤◌, ◌↔◌, length, slice_index, slice_index_or, IsTrue, IfOk, IfErr};
ghost use Rattle.bc_bytes.specs.Fields.{SameOutside};
ghost use Rattle.bc_disk.specs.declared.gens.BucketRecord.{BucketRecord};
ghost use Rattle.bc_disk.specs.Chain.{bucket_bytes, records_in_set, sets_in_chain};
ghost use Rattle.bc_prio.specs.Set.{magic_of, next_in, HasMagic, HasChecksum, IsRecord, HoldsPart, IsSet, IsWrong, IsWrittenSet, records_in};

use crate::error::PrioError;
use crate::sizes::records_in_part;
use bc_bytes::{crc64, get_u16, get_u64, put_u16, put_u64};
use bc_disk::chain::{HEADER, RECORD, first_in_part, sets_in_chain};
use bc_disk::gens::{BucketRecord, Gens};
use bc_disk::geometry::Geometry;

/// What the magic of a cache's priority sets is made with.
const MAGIC: u64 = 0x6750_e15f_8733_7f91;

// Writes all but the records and the checksum.
fn put_header(g: &Geometry, next: u32, bytes: &mut [u8])
    requires { 40 ≤ length bytes.old }
    ensures magic { HasMagic g.now bytes.new }
    ensures names { next_in bytes.new ≡ next }
    ensures between { (k : ℕ) → 16 ≤ k → k < 32 → slice_index bytes.new k ≡ 0 }
    ensures behind { (k : ℕ) → 40 ≤ k → slice_index bytes.new k ≡ 0 }
{
    bytes.fill(0);
    put_u64(bytes, 8, g.set_magic ^ MAGIC);
    put_u64(bytes, 32, u64::from(next));
}

// Writes record i.
fn put_record(bytes: &mut [u8], i: u32, entry: BucketRecord)
    requires few { i < 2 ^ 30 }
    requires within { 43 + 3 * i ≤ length bytes.old }
    ensures written { IsRecord bytes.new i entry }
    ensures others { SameOutside 3 bytes.old bytes.new (40 + 3 * i) }
{
    let at = (HEADER + RECORD * i) as usize;
    put_u16(bytes, at, entry.priority);
    bytes[at + 2] = entry.generation;
}

// Writes the records of this part.
fn put_records(g: &Geometry, gens: &Gens, part: u32, bytes: &mut [u8])
    requires part { part < sets_in_chain g.now }
    requires records { length gens.now.records ≡ g.now.nbuckets }
    requires whole { length bytes.old ≡ bucket_bytes g.now }
    ensures holds { HoldsPart g.now gens.now.records part bytes.new }
    ensures others { SameOutside (3 * records_in g.now part) bytes.old bytes.new 40 }
{
    let first = first_in_part(g, part);
    for i in 0..records_in_part(g, part) {
        put_record(bytes, i, gens.records()[(first + i) as usize]);
    }
}

// Writes the checksum of all that stands behind it.
fn put_checksum(bytes: &mut [u8])
    requires { 8 ≤ length bytes.old }
    ensures checksum { HasChecksum bytes.new }
    ensures others { SameOutside 8 bytes.old bytes.new 0 }
{
    let sum = crc64(u64::MAX, &bytes[8..]);
    put_u64(bytes, 0, sum);
}

/// Writes the bytes of one set of a chain: that of part `part`, behind which follows the set in
/// bucket `next`, or none where `next` is 0. Part 0 has the records of the first buckets, as many as
/// fit. Takes no memory.
pub fn encode_set(g: &Geometry, gens: &Gens, part: u32, next: u32, buffer: &mut [u8])
    requires part { part < sets_in_chain g.now }
    requires records { length gens.now.records ≡ g.now.nbuckets }
    requires whole { length buffer.old ≡ bucket_bytes g.now }
    ensures { IsWrittenSet g.now gens.now.records part next buffer.new }
{
    put_header(g, next, buffer);
    put_records(g, gens, part, buffer);
    put_checksum(buffer);
}

/// The bucket that the set of this part names as the next, once its bytes were found to be that set.
pub fn next_of(g: &Geometry, part: u32, bytes: &[u8]) -> Result<u64, PrioError>
    requires part { part < sets_in_chain g.now }
    requires whole { length bytes.now ≡ bucket_bytes g.now }
    ensures ok { IfOk result (λ next. IsSet g.now part bytes.now × (next ≡ next_in bytes.now)) }
    ensures refused { IfErr result (λ e. IsWrong g.now part bytes.now e) }
{
    if get_u64(bytes, 8) != g.set_magic ^ MAGIC {
        return Err(PrioError::Magic);
    }
    if get_u64(bytes, 0) != crc64(u64::MAX, &bytes[8..]) {
        return Err(PrioError::Checksum);
    }
    let next = get_u64(bytes, 32);
    if (next == 0) != (part + 1 == sets_in_chain(g)) {
        return Err(PrioError::Count);
    }
    Ok(next)
}

/// Takes the records of this part out of its set. Those of the parts before stay.
pub fn get_records(g: &Geometry, part: u32, bytes: &[u8], gens: &mut Gens)
    requires part { part < sets_in_chain g.now }
    requires records { length gens.old.records ≡ g.now.nbuckets }
    requires whole { length bytes.now ≡ bucket_bytes g.now }
    ensures holds { HoldsPart g.now gens.new.records part bytes.now }
    ensures before { (k : ℕ) (d : BucketRecord) → k < part * records_in_set g.now
        → slice_index_or gens.new.records k d ≡ slice_index_or gens.old.records k d }
    ensures length { length gens.new.records ≡ length gens.old.records }
    ensures chain { gens.new.chain ≡ gens.old.chain }
{
    let first = first_in_part(g, part);
    for i in 0..records_in_part(g, part) {
        let at = (HEADER + RECORD * i) as usize;
        gens.set(first + i, get_u16(bytes, at), bytes[at + 2]);
    }
}
