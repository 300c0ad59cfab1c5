//! What is printed of one sector.
ghost use Rattle.std.specs.Prelude.{◌≡◌};

use bc_model::kinds::Kind;
use bc_model::sector::{Sector, kind};

/// What is printed of a sector.
#[derive(Clone, Copy, Drop)]
pub(crate) enum Seen {
    /// It holds the pattern of this stamp for its own number.
    Stamp(u64),
    /// It holds zeros.
    Zero,
    /// It holds this other value.
    Other(Sector),
}

impl Seen {
    ghost use Rattle.bc_script.specs.Runs.{IsSeen, is_joined};

    /// What is printed of the sector with this number and value.
    pub(crate) fn new(sector: u64, value: &Sector) -> Seen
        ensures { IsSeen sector value.now result }
    {
        match kind(sector, value) {
            Kind::Pattern(stamp) => Seen::Stamp(stamp),
            Kind::Zero => Seen::Zero,
            Kind::Raw => Seen::Other(*value),
        }
    }

    /// Whether the next sector is of the same run.
    pub(crate) fn is_joined(&self, next: &Seen) -> bool
        ensures { result ≡ is_joined self.now next.now }
    {
        match (self, next) {
            (Seen::Stamp(stamp), Seen::Stamp(other)) => *stamp == *other,
            (Seen::Zero, Seen::Zero) => true,
            _ => false,
        }
    }
}
