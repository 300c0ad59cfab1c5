//! Writes sets.
ghost use Rattle.std.specs.Prelude.{◌≡◌, ◌+◌, ◌*◌, ◌^◌, ◌<◌, ◌≤◌, ◌++◌, ℕ, List, length, take};
ghost use Rattle.bc_bytes.specs.Fields.{SameOutside};
ghost use Rattle.bc_keys.specs.Spelling.{words_at, words_of_all};
ghost use Rattle.bc_set.specs.declared.set.Set.{Set};
ghost use Rattle.bc_set.specs.declared.set.SetKind.{SetKind};
ghost use Rattle.bc_set.specs.SetBytes.{IsSet, AreSetKeys, bytes_of, words_in};

use crate::set::{HEADER, MAGIC, Set, VERSION};
use bc_bytes::{crc64, put_u32, put_u64};
use bc_keys::write_keys;

/// Writes the header of a set, of version 1, before `count` words of keys that stand in the bytes
/// already, from byte 32 on: so a writer may keep the keys in any form. Says how many bytes the set
/// takes. Those behind it stay. Takes no memory.
///
/// `start` and `magic` are those of `read_set`.
pub fn write_header(seq: u64, count: usize, start: u64, magic: u64, into: &mut [u8]) -> usize
    requires fits { 32 + 8 * count ≤ length into.old }
    requires counted { count < 2 ^ 32 }
    ensures bytes { result ≡ 32 + 8 * count }
    // The set with these words is read, whatever follows it.
    ensures written { (s : Set) (kind : SetKind) (rest : List ℕ) → s.seq ≡ seq → s.version ≡ 1
        → words_at count into.old 32 ≡ words_of_all s.keys → AreSetKeys kind s.keys
        → IsSet start magic kind (take result into.new ++ rest) s }
    ensures words { (s : Set) → words_at count into.old 32 ≡ words_of_all s.keys
        → words_in into.new ≡ words_of_all s.keys }
    ensures behind { SameOutside result into.old into.new 0 }
{
    let end = HEADER + 8 * count;
    put_u64(into, 8, magic ^ MAGIC);
    put_u64(into, 16, seq);
    put_u32(into, 24, VERSION);
    put_u32(into, 28, count as u32);
    let checksum = crc64(start, &into[8..end]);
    put_u64(into, 0, checksum);
    end
}

/// Writes the set to the front of the bytes, and says how many it takes. The bytes behind it stay.
/// Takes no memory.
///
/// `start` and `magic` are those of `read_set`. The count of words has 32 bits.
pub fn write_set(s: &Set, start: u64, magic: u64, into: &mut [u8]) -> usize
    requires fits { bytes_of s.now ≤ length into.old }
    requires counted { length (words_of_all s.now.keys) < 2 ^ 32 }
    requires version { s.now.version ≡ 1 }
    requires keys { (kind : SetKind) × AreSetKeys kind s.now.keys }
    ensures bytes { result ≡ bytes_of s.now }
    // What was written is read again, whatever follows it.
    ensures written { (kind : SetKind) (rest : List ℕ) → AreSetKeys kind s.now.keys
        → IsSet start magic kind (take result into.new ++ rest) s.now }
    // The free bits of each key are as `encode` writes them.
    ensures words { words_in into.new ≡ words_of_all s.now.keys }
    ensures behind { SameOutside result into.old into.new 0 }
{
    let count = write_keys(s.keys.as_slice(), into, HEADER);
    write_header(s.seq, count, start, magic, into)
}
