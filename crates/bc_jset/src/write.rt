//! Writes entries.
ghost use Rattle.std.specs.Prelude.{◌≡◌, ◌≤◌, ◌++◌, ℕ, List, length, take, All};
ghost use Rattle.bc_bytes.specs.Fields.{SameOutside};
ghost use Rattle.bc_key.specs.Key.{IsExtent};
ghost use Rattle.bc_keys.specs.Spelling.{words_of_all};
ghost use Rattle.bc_jset.specs.EntryBytes.{IsEntry, IsPlain, IsLevel, bytes_of, most_words, with_keys};

use crate::entry::{HEADER, JEntry};
use crate::fields::{put_numbers, put_places};
use bc_bytes::{crc64, put_u64};
use bc_key::Key;
use bc_keys::write_keys;

/// Writes the entry to the front of the bytes, with these keys in the place of its own, and says
/// how many bytes it takes. So a writer keeps the keys, and the memory that they have. The bytes
/// behind the entry stay. Takes no memory.
///
/// `magic` is that of `read_entry`.
pub fn write_entry_with(e: &JEntry, keys: &[Key], magic: u64, into: &mut [u8]) -> usize
    requires fits { bytes_of (with_keys e.now keys.now) ≤ length into.old }
    requires few { length (words_of_all keys.now) ≤ most_words }
    requires level { IsLevel e.now.level }
    requires extents { All IsExtent keys.now }
    ensures bytes { result ≡ bytes_of (with_keys e.now keys.now) }
    // What was written is read again, whatever follows it.
    ensures written { (rest : List ℕ)
        → IsEntry magic (take result into.new ++ rest) (with_keys e.now keys.now) }
    // What a reader ignores is written in one way.
    ensures plain { IsPlain into.new (with_keys e.now keys.now) }
    ensures behind { SameOutside result into.old into.new 0 }
{
    let count = write_keys(keys, into, HEADER);
    let end = HEADER + 8 * count;
    put_numbers(e, magic, count as u32, into);
    put_places(e, into);
    let checksum = crc64(u64::MAX, &into[8..end]);
    put_u64(into, 0, checksum);
    end
}

/// Writes the entry to the front of the bytes, and says how many it takes. The bytes behind it
/// stay. Takes no memory.
///
/// `magic` is that of `read_entry`.
pub fn write_entry(e: &JEntry, magic: u64, into: &mut [u8]) -> usize
    requires fits { bytes_of e.now ≤ length into.old }
    requires few { length (words_of_all e.now.keys) ≤ most_words }
    requires level { IsLevel e.now.level }
    requires extents { All IsExtent e.now.keys }
    ensures bytes { result ≡ bytes_of e.now }
    // What was written is read again, whatever follows it.
    ensures written { (rest : List ℕ) → IsEntry magic (take result into.new ++ rest) e.now }
    // What a reader ignores is written in one way.
    ensures plain { IsPlain into.new e.now }
    ensures behind { SameOutside result into.old into.new 0 }
{
    write_entry_with(e, e.keys.as_slice(), magic, into)
}
