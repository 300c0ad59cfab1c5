//! The state of a backing device.

/// Whether a cache may have data that a backing device lacks.
#[derive(Clone, Copy, Debug, PartialEq, Eq, Drop)]
pub enum BackingState {
    /// The device has no cache.
    None,
    /// Its cache has no data that it lacks.
    Clean,
    /// Its cache may have data that it lacks.
    Dirty,
    /// It was used without a cache that had data which it lacked.
    Stale,
}

impl BackingState {
    ghost use Rattle.bc_super.specs.Super.{IsState, state_number};

    /// The state that bits 61 and 62 of a backing device's flags name.
    pub(crate) fn from_flags(flags: u64) -> BackingState
        ensures { IsState (state_number flags) result }
    {
        match (flags >> 61) & 0b11 {
            0 => BackingState::None,
            1 => BackingState::Clean,
            2 => BackingState::Dirty,
            _ => BackingState::Stale,
        }
    }
}
