//! Reads keys.
ghost use Rattle.std.specs.Prelude.{◌≡◌, ◌+◌, ◌*◌, ◌≤◌, List, length, IfOk, IfErr, IsOkAnd, MatchResult};
ghost use Rattle.bc_key.specs.declared.key.Key.{Key};
ghost use Rattle.bc_key.specs.Words.{Spells, Refuses};
ghost use Rattle.bc_keys.specs.Spelling.{words_at, SpellKeys, IsCause};

use crate::error::KeysError;
use crate::keys::Keys;
use crate::words::{KEY_WORDS, words_from};
use bc_key::{Key, KeyError, decode};
use std::alloc::Global;

/// Reads the key at the front of the `count` words from place `at`, and says how many of them it
/// takes. The refusals are those of `decode`.
pub fn read_key(bytes: &[u8], at: usize, count: usize) -> Result<(Key, usize), KeyError>
    requires { at + 8 * count ≤ length bytes.now }
    ensures found { IfOk result (λ r. Spells (words_at count bytes.now at) r.0
        × (r.1 ≡ 2 + r.0.count)) }
    ensures only { (key : Key) → Spells (words_at count bytes.now at) key
        → IsOkAnd result (λ r. (r.0 ≡ key) × (r.1 ≡ 2 + key.count)) }
    ensures refused { IfErr result (Refuses (words_at count bytes.now at)) }
{
    let held = count.min(KEY_WORDS);
    let words = words_from(bytes, at, held);
    decode(&words[..held])
}

/// Reads the keys that the `count` words from place `at` are, all of these words. Memory is taken
/// once, for the most keys that the words can be, which is half their number.
///
/// The refusal is that of the first words that are no key's.
pub fn read_keys(alloc: Global, bytes: &[u8], at: usize, count: usize) -> Result<Keys, KeysError>
    requires { at + 8 * count ≤ length bytes.now }
    // What is read is spelled so, and what is spelled so is read.
    ensures found { IfOk result (SpellKeys (words_at count bytes.now at)) }
    ensures only { (keys : List Key) → SpellKeys (words_at count bytes.now at) keys
        → MatchResult result (λ r. r ≡ keys) (λ e. e ≡ KeysError.Memory) }
    ensures refused { IfErr result (IsCause (words_at count bytes.now at)) }
{
    let mut keys = Vec::with_capacity(alloc, count / 2)?;
    let mut taken = 0;
    while taken < count {
        let (key, words) = read_key(bytes, at + 8 * taken, count - taken)?;
        keys.push_reserved(key);
        taken += words;
    }
    Ok(Keys::from_vec(keys))
}
