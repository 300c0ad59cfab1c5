//! Writes keys.
ghost use Rattle.std.specs.Prelude.{◌≡◌, ◌+◌, ◌*◌, ◌≤◌, length};
ghost use Rattle.bc_bytes.specs.Fields.{SameOutside};
ghost use Rattle.bc_key.specs.Words.{words_of};
ghost use Rattle.bc_keys.specs.Spelling.{words_at, words_of_all};

use crate::words::{KEY_WORDS, put_words};
use bc_key::{Key, encode};

/// How many words the keys take: two for each, and one for each pointer.
pub fn word_count(keys: &[Key]) -> usize
    ensures count { result ≡ length (words_of_all keys.now) }
    ensures few { result ≤ 8 * length keys.now }
{
    let mut count = 0;
    for key in keys {
        count += 2 + usize::from(key.count);
    }
    count
}

/// Writes the key's words from place `at` on, and says how many they are. Every byte elsewhere stays.
pub fn write_key(key: &Key, into: &mut [u8], at: usize) -> usize
    requires { at + 8 * (2 + key.now.count) ≤ length into.old }
    ensures count { result ≡ 2 + key.now.count }
    ensures written { words_at result into.new at ≡ words_of key.now }
    ensures others { SameOutside (8 * result) into.old into.new at }
{
    let mut words = [0; KEY_WORDS];
    let count = encode(key, &mut words);
    put_words(into, at, &words[..count]);
    count
}

/// Writes the keys' words from place `at` on, and says how many they are. Every byte elsewhere
/// stays. Takes no memory.
pub fn write_keys(keys: &[Key], into: &mut [u8], at: usize) -> usize
    requires { at + 8 * length (words_of_all keys.now) ≤ length into.old }
    ensures count { result ≡ length (words_of_all keys.now) }
    ensures written { words_at result into.new at ≡ words_of_all keys.now }
    ensures others { SameOutside (8 * result) into.old into.new at }
{
    let mut count = 0;
    for key in keys {
        count += write_key(key, into, at + 8 * count);
    }
    count
}
