//! Numbers that look random.
ghost use Rattle.std.specs.Prelude.{◌<◌};

/// A source of them.
#[derive(Drop)]
pub struct Random(u64);

impl Random {
    /// The same ones each time.
    pub fn new() -> Random {
        Random(7)
    }

    /// The next one, below 2^31.
    pub fn next(&mut self) -> u32
        ensures { result < 2147483648 }
    {
        self.0 = self
            .0
            .wrapping_mul(6_364_136_223_846_793_005)
            .wrapping_add(1_442_695_040_888_963_407);
        (self.0 >> 33) as u32
    }

    /// The next one, below `limit`.
    pub fn below(&mut self, limit: u32) -> u32
        requires { 0 < limit }
        ensures { result < limit }
    {
        self.next() % limit
    }
}
