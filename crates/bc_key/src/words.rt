//! Keys as words. Each word is a little-endian number of 64 bits where it is stored.

ghost use Rattle.std.specs.Prelude.{◌≡◌, ◌+◌, ◌/◌, ◌%◌, ◌^◌, ◌<◌, ◌≤◌, ℕ, List, ◌++◌, take, drop, length, IfOk, IsOkAnd, IfErr};
ghost use Rattle.bc_key.specs.Words.{Spells, HasPlainBits, ReadsAsPtr, Refuses, count_in, words_of, high_word, ptr_word};
ghost use Rattle.bc_key.specs.declared.key.Key.{Key};

use crate::error::KeyError;
use crate::key::Key;
use crate::ptr::Ptr;

/// The bits of a word from bit `low` on, `width` of them.
fn bits(word: u64, low: u32, width: u32) -> u64
    requires low { low < 64 }
    requires width { width < 64 }
    ensures { result ≡ word / 2 ^ low % 2 ^ width }
{
    (word >> low) & ((1 << width) - 1)
}

fn ptr_of(word: u64) -> Ptr
    ensures { ReadsAsPtr word result }
{
    Ptr {
        dev: bits(word, 51, 12) as u16,
        offset: bits(word, 8, 43),
        generation: bits(word, 0, 8) as u8,
    }
}

fn key_of(words: &[u64], count: u8) -> Key
    requires counted { count ≡ count_in words.now }
    requires few { count < 7 }
    requires long { 2 + count ≤ length words.now }
    ensures { Spells words.now result }
{
    let mut ptrs = [Ptr::ZERO; 6];
    for i in 0..usize::from(count) {
        ptrs[i] = ptr_of(words[2 + i]);
    }
    let high = words[0];
    Key {
        inode: bits(high, 0, 20) as u32,
        end: words[1],
        size: bits(high, 20, 16) as u16,
        dirty: bits(high, 36, 1) == 1,
        csum: bits(high, 56, 2) as u8,
        count,
        ptrs,
    }
}

/// Reads the key that the first of the words are, and says how many they are: two and one for each
/// pointer. The bits 37 to 55, 58, 59 and 63 of the first word and bit 63 of each pointer's word
/// are ignored.
///
/// The fault is the first one from the left: `Pointers` where the first word counts 7 pointers,
/// and else `Short` where words are missing.
pub fn decode(words: &[u64]) -> Result<(Key, usize), KeyError>
    // What is read is spelled so, and what is spelled so is read.
    ensures found { IfOk result (λ r. Spells words.now r.0 × (r.1 ≡ 2 + r.0.count)) }
    ensures only { (key : Key) → Spells words.now key
        → IsOkAnd result (λ r. (r.0 ≡ key) × (r.1 ≡ 2 + key.count)) }
    ensures refused { IfErr result (Refuses words.now) }

    // What was written is read again, whatever follows it. What is read has been written so, but
    // for bits that are ignored.
    ensures again { (key : Key) (rest : List ℕ) → words.now ≡ words_of key ++ rest
        → IsOkAnd result (λ r. (r.0 ≡ key) × (r.1 ≡ 2 + key.count)) }
    ensures plain { IfOk result (λ r. HasPlainBits words.now r.0.count
        → take r.1 words.now ≡ words_of r.0) }
{
    let Some(high) = words.first() else {
        return Err(KeyError::Short);
    };
    let count = bits(*high, 60, 3) as u8;
    if count == 7 {
        return Err(KeyError::Pointers);
    }
    let taken = 2 + usize::from(count);
    if words.len() < taken {
        return Err(KeyError::Short);
    }
    Ok((key_of(words, count), taken))
}

fn word_of_ptr(ptr: &Ptr) -> u64
    ensures { result ≡ ptr_word ptr.now }
{
    (u64::from(ptr.dev) << 51) | (ptr.offset << 8) | u64::from(ptr.generation)
}

fn high_word_of(k: &Key) -> u64
    ensures { result ≡ high_word k.now }
{
    (1 << 63)
        | (u64::from(k.count) << 60)
        | (u64::from(k.csum) << 56)
        | (u64::from(k.dirty) << 36)
        | (u64::from(k.size) << 20)
        | u64::from(k.inode)
}

/// Writes the key's words to the front, and says how many they are: two and one for each pointer.
/// Bit 63 of the first word is set, and no other bit beside those of the fields is. The words
/// behind them stay.
pub fn encode(k: &Key, into: &mut [u64]) -> usize
    requires { 2 + k.now.count ≤ length into.old }
    ensures count { result ≡ 2 + k.now.count }
    ensures written { into.new ≡ words_of k.now ++ drop (2 + k.now.count) into.old }
    ensures spelled { Spells into.new k.now }
{
    into[0] = high_word_of(k);
    into[1] = k.end;
    let count = usize::from(k.count);
    for i in 0..count {
        into[2 + i] = word_of_ptr(&k.ptrs[i]);
    }
    2 + count
}
