//! The keys of a map as words, so that they are written from the form in which they are kept.
ghost use Rattle.std.specs.Prelude.{◌≡◌, ◌+◌, ◌*◌, ◌≤◌, ◌^◌, length};
ghost use Rattle.bc_bytes.specs.Fields.{SameOutside};
ghost use Rattle.bc_keys.specs.Spelling.{words_at, words_of_all};

use bc_extent::Extents;
use bc_keys::write_key;

/// How many words the keys take: two for each, and one for each pointer.
pub fn words_in(keys: &Extents) -> usize
    ensures count { result ≡ length (words_of_all keys.now.keys) }
    ensures few { result ≤ 2 ^ 58 }
{
    let mut count = 0;
    for i in 0..keys.len() {
        count += 2 + usize::from(keys.pointers(i));
    }
    count
}

/// Writes the keys' words from place `at` on, and says how many they are. Every byte elsewhere
/// stays. Takes no memory.
pub fn put_keys(keys: &Extents, into: &mut [u8], at: usize) -> usize
    requires { at + 8 * length (words_of_all keys.now.keys) ≤ length into.old }
    ensures count { result ≡ length (words_of_all keys.now.keys) }
    ensures written { words_at result into.new at ≡ words_of_all keys.now.keys }
    ensures others { SameOutside (8 * result) into.old into.new at }
{
    let mut count = 0;
    for i in 0..keys.len() {
        let key = keys.key(i);
        count += write_key(&key, into, at + 8 * count);
    }
    count
}
