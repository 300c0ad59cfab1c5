//! One seat's claim of a range of sectors.

/// Whether other claims of the same sectors may stand beside this one.
#[derive(Clone, Copy, Debug, PartialEq, Eq, Drop)]
pub enum Share {
    /// For reading and for background work: other shared claims may overlap it.
    Shared,
    /// For writing: no other claim may overlap it.
    Exclusive,
}

/// A claim of `count` sectors of the backing device from `first` on.
#[derive(Clone, Copy, Debug, PartialEq, Eq, Drop)]
pub struct Claim {
    pub seat: u32,
    pub first: u64,
    pub count: u32,
    pub share: Share,
}

impl Claim {
    ghost use Rattle.std.specs.Prelude.{◌≡◌, ◌+◌, ◌<◌, ◌^◌};
    ghost use Rattle.bc_flight.specs.Claims.{conflicts};

    /// Whether the ranges overlap and one of the two is exclusive.
    pub fn conflicts(&self, other: &Claim) -> bool
        requires this { self.now.first + self.now.count < 2 ^ 64 }
        requires that { other.now.first + other.now.count < 2 ^ 64 }
        ensures { result ≡ conflicts self.now other.now }
    {
        let overlaps = self.first < other.first + other.count as u64
            && other.first < self.first + self.count as u64;
        overlaps && (self.share == Share::Exclusive || other.share == Share::Exclusive)
    }
}
