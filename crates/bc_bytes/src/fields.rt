//! Little-endian numbers at byte places.

ghost use Rattle.std.specs.Prelude.{◌≡◌, ◌+◌, ◌≤◌, length};
ghost use Rattle.bc_bytes.specs.Fields.{number_at, with_number, SameOutside};

use byteorder::{ByteOrder, LittleEndian};

/// The 16-bit number in the 2 bytes from place `at`, the lowest byte first.
#[tactic(auto, unfolding(crate::specs::Fields::number_at))]
pub fn get_u16(bytes: &[u8], at: usize) -> u16
    requires { at + 2 ≤ length bytes.now }
    ensures { result ≡ number_at 2 bytes.now at }
{
    LittleEndian::read_u16(&bytes[at..])
}

/// The 32-bit number in the 4 bytes from place `at`, the lowest byte first.
#[tactic(auto, unfolding(crate::specs::Fields::number_at))]
pub fn get_u32(bytes: &[u8], at: usize) -> u32
    requires { at + 4 ≤ length bytes.now }
    ensures { result ≡ number_at 4 bytes.now at }
{
    LittleEndian::read_u32(&bytes[at..])
}

/// The 64-bit number in the 8 bytes from place `at`, the lowest byte first.
#[tactic(auto, unfolding(crate::specs::Fields::number_at))]
pub fn get_u64(bytes: &[u8], at: usize) -> u64
    requires { at + 8 ≤ length bytes.now }
    ensures { result ≡ number_at 8 bytes.now at }
{
    LittleEndian::read_u64(&bytes[at..])
}

/// Writes a 16-bit number into the 2 bytes from place `at`, the lowest byte first. Every other
/// byte stays.
pub fn put_u16(bytes: &mut [u8], at: usize, v: u16)
    requires { at + 2 ≤ length bytes.old }
    ensures written { bytes.new ≡ with_number 2 bytes.old at v }
    ensures field { number_at 2 bytes.new at ≡ v }
    ensures others { SameOutside 2 bytes.old bytes.new at }
{
    LittleEndian::write_u16(&mut bytes[at..], v);
}

/// Writes a 32-bit number into the 4 bytes from place `at`, the lowest byte first. Every other
/// byte stays.
pub fn put_u32(bytes: &mut [u8], at: usize, v: u32)
    requires { at + 4 ≤ length bytes.old }
    ensures written { bytes.new ≡ with_number 4 bytes.old at v }
    ensures field { number_at 4 bytes.new at ≡ v }
    ensures others { SameOutside 4 bytes.old bytes.new at }
{
    LittleEndian::write_u32(&mut bytes[at..], v);
}

/// Writes a 64-bit number into the 8 bytes from place `at`, the lowest byte first. Every other
/// byte stays.
pub fn put_u64(bytes: &mut [u8], at: usize, v: u64)
    requires { at + 8 ≤ length bytes.old }
    ensures written { bytes.new ≡ with_number 8 bytes.old at v }
    ensures field { number_at 8 bytes.new at ≡ v }
    ensures others { SameOutside 8 bytes.old bytes.new at }
{
    LittleEndian::write_u64(&mut bytes[at..], v);
}
