ghost use Rattle.std.specs.Prelude.{◌<◌, ◌^◌};

/// Where data lies on a cache device.
#[derive(Clone, Copy, Debug, PartialEq, Eq)]
pub struct Ptr {
    /// The number of the device in its set, below 2^12.
    pub dev: u16,
    /// The first sector on that device, below 2^43.
    pub offset: u64,
    /// The generation that the bucket of that sector had when the pointer was made.
    pub generation: u8,
    pub ghost dev_fits: { dev < 2 ^ 12 },
    pub ghost offset_fits: { offset < 2 ^ 43 },
    pub ghost generation_fits: { generation < 2 ^ 8 },
}

impl Ptr {
    /// What stands in a key's places that hold no pointer.
    pub const ZERO: Ptr = Ptr {
        dev: 0,
        offset: 0,
        generation: 0,
    };
}
