//! The fields of an entry before its words.
ghost use Rattle.std.specs.Prelude.{◌≡◌, ◌+◌, ◌≤◌, length};
ghost use Rattle.bc_bytes.specs.Fields.{SameOutside};
ghost use Rattle.bc_keys.specs.Spelling.{words_at};
ghost use Rattle.bc_jset.specs.EntryBytes.{place_words};
ghost use Rattle.bc_jset.specs.Fields.{HasNumbers, HasPlaces};

use crate::entry::{JEntry, MAGIC, VERSION};
use bc_bytes::{put_u32, put_u64};
use bc_key::{Key, encode};
use bc_keys::put_words;

/// Writes what stands from byte 8 on up to byte 40: the magic, the numbers, the version and the
/// count of words.
pub fn put_numbers(e: &JEntry, magic: u64, count: u32, into: &mut [u8])
    requires { 40 ≤ length into.old }
    ensures numbers { HasNumbers magic count into.new e.now }
    ensures others { SameOutside 32 into.old into.new 8 }
{
    put_u64(into, 8, magic ^ MAGIC);
    put_u64(into, 16, e.seq);
    put_u32(into, 24, VERSION);
    put_u32(into, 28, count);
    put_u64(into, 32, e.last_seq);
}

/// Writes a key into a place of eight words, those behind its own as zeros.
fn put_key(key: &Key, into: &mut [u8], at: usize)
    requires { at + 64 ≤ length into.old }
    ensures written { words_at 8 into.new at ≡ place_words key.now }
    ensures others { SameOutside 64 into.old into.new at }
{
    let mut words = [0; 8];
    encode(key, &mut words);
    put_words(into, at, &words);
}

/// Writes what stands from byte 40 on up to byte 240: the two keys, the level, and the first
/// priority bucket.
pub fn put_places(e: &JEntry, into: &mut [u8])
    requires { 240 ≤ length into.old }
    ensures places { HasPlaces into.new e.now }
    ensures others { SameOutside 200 into.old into.new 40 }
{
    put_key(&e.uuid_bucket, into, 40);
    put_key(&e.root, into, 104);
    put_words(
        into,
        168,
        &[u64::from(e.level), e.prio, 0, 0, 0, 0, 0, 0, 0],
    );
}
