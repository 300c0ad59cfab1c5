//! The value of one sector, and the values that traces write.
ghost use Rattle.std.specs.Prelude.{◌≡◌, ◌≤◌, ◌↔◌, ◌+◌, ◌++◌, take, length, IsTrue, ◌*◌, ◌∷◌, []};
ghost use Rattle.std.specs.Int.{w64, from_le_bytes};
ghost use Rattle.bc_model.specs.Sector.{sectors};
ghost use Rattle.bc_model.specs.Pattern.{pattern, zeros, IsKind};

use crate::kinds::Kind;

/// What a sector holds: 512 bytes.
pub type Sector = [u8; 512];

// Puts a word at this place.
fn put_word(value: &mut [u8], at: usize, word: &[u8; 8])
    requires { at + 8 ≤ length value.old }
    ensures { take (at + 8) value.new ≡ take at value.old ++ word.now }
{
    value[at..at + 8].copy_from_slice(word);
}

/// The value that a trace writes to a sector: 64 words of 8 bytes, the lowest byte first, of which
/// the even ones are the stamp and the odd ones the sector's number.
pub fn pattern(stamp: u64, sector: u64) -> Sector
    requires { 1 ≤ stamp }
    ensures { result ≡ pattern stamp sector }
{
    let even = stamp.to_le_bytes();
    let odd = sector.to_le_bytes();
    let mut value = [0; 512];
    for pair in 0..32usize {
        put_word(&mut value, 16 * pair, &even);
        put_word(&mut value, 16 * pair + 8, &odd);
    }
    value
}

// Whether all bytes are zero.
fn is_zero(value: &Sector) -> bool
    ensures { IsTrue result ↔ (value.now ≡ zeros) }
{
    *value == [0; 512]
}

// Whether it is the pattern of this stamp for this sector.
fn is_pattern(value: &Sector, stamp: u64, sector: u64) -> bool
    requires { 1 ≤ stamp }
    ensures { IsTrue result ↔ (value.now ≡ pattern stamp sector) }
{
    *value == pattern(stamp, sector)
}

// The stamp that the value would have as a pattern.
fn stamp_in(value: &Sector) -> u64
    ensures { result ≡ from_le_bytes w64 (take 8 value.now) }
{
    let mut word = [0; 8];
    word.copy_from_slice(&value[..8]);
    u64::from_le_bytes(word)
}

/// What is to be seen in the value of this sector.
pub fn kind(sector: u64, value: &Sector) -> Kind
    ensures { IsKind sector value.now result }
{
    let stamp = stamp_in(value);
    if stamp == 0 {
        return if is_zero(value) {
            Kind::Zero
        } else {
            Kind::Raw
        };
    }
    if is_pattern(value, stamp, sector) {
        Kind::Pattern(stamp)
    } else {
        Kind::Raw
    }
}

/// The value of the sector that has so many before it.
pub fn sector_at(bytes: &[u8], place: usize) -> Sector
    requires { 512 * place + 512 ≤ length bytes.now }
    ensures { sectors (place + 1) bytes.now ≡ sectors place bytes.now ++ result ∷ [] }
{
    let mut value = [0; 512];
    value.copy_from_slice(&bytes[512 * place..512 * place + 512]);
    value
}
