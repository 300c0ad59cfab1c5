//! Words of 64 bits in bytes, the lowest byte of each first.
ghost use Rattle.std.specs.Prelude.{◌≡◌, ◌+◌, ◌*◌, ◌≤◌, length, take};
ghost use Rattle.bc_bytes.specs.Fields.{SameOutside};
ghost use Rattle.bc_keys.specs.Spelling.{words_at};

use bc_bytes::{get_u64, put_u64};

/// The most words of a key: two, and one for each of six pointers.
pub const KEY_WORDS: usize = 8;

/// The `count` words from place `at` on, and zeros behind them.
pub fn words_from(bytes: &[u8], at: usize, count: usize) -> [u64; KEY_WORDS]
    requires few { count ≤ KEY_WORDS }
    requires within { at + 8 * count ≤ length bytes.now }
    ensures { take count result ≡ words_at count bytes.now at }
{
    let mut words = [0; KEY_WORDS];
    for i in 0..count {
        words[i] = get_u64(bytes, at + 8 * i);
    }
    words
}

/// Writes the words from place `at` on. Every byte elsewhere stays.
pub fn put_words(into: &mut [u8], at: usize, words: &[u64])
    requires { at + 8 * length words.now ≤ length into.old }
    ensures written { words_at (length words.now) into.new at ≡ words.now }
    ensures others { SameOutside (8 * length words.now) into.old into.new at }
{
    for (i, word) in words.iter().enumerate() {
        put_u64(into, at + 8 * i, *word);
    }
}
