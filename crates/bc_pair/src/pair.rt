//! What a new pair is to be.
ghost use Rattle.std.specs.Prelude.{◌≡◌, length};

use bc_mode::Mode;

/// What a new pair is to be.
#[derive(Clone, Copy, Debug, PartialEq, Eq, Drop)]
pub struct NewPair {
    /// The uuid of the set, which isn't zero.
    pub set_uuid: [u8; 16],
    /// The uuid of the cache device.
    pub cache_uuid: [u8; 16],
    /// The uuid of the backing device.
    pub backing_uuid: [u8; 16],
    /// The sectors of a block: 1, 2, 4 or 8.
    pub block: u16,
    /// The sectors of a bucket, a power of two from 64 to 32,768.
    pub bucket: u16,
    /// The mode that the backing device names.
    pub mode: Mode,
    /// The sector of the backing device at which its data begins, from 16 on.
    pub offset: u64,
    pub ghost set_whole: { length set_uuid ≡ 16 },
    pub ghost cache_whole: { length cache_uuid ≡ 16 },
    pub ghost backing_whole: { length backing_uuid ≡ 16 },
}
