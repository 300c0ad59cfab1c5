//! The path of a piece of a write, and whether a read fills the cache.
ghost use Rattle.std.specs.Prelude.{◌≡◌};
ghost use Rattle.bc_mode.specs.Choice.{fills, first_fit, is_long, rules_for};

use crate::mode::Mode;

/// Where a piece of a write goes.
#[derive(Clone, Copy, Debug, PartialEq, Eq, Drop)]
pub enum Path {
    /// To the cache device, with dirty keys.
    Writeback,
    /// To the backing device; no key covers it afterwards.
    Around,
    /// To the backing device, and then to the cache device with clean keys.
    Through,
}

// Whether the streak is too long for the cache.
fn is_long(streak: u64, cutoff: u64) -> bool
    ensures { result ≡ is_long streak cutoff }
{
    0 < cutoff && cutoff <= streak
}

/// The path of a piece of a write by the first of these rules that fits: a piece that overlaps a
/// dirty key goes back to the cache, whatever the mode is; in the modes none and writearound it
/// goes around; where its `streak` in sectors is at least the `cutoff`, and that is above 0, it
/// goes around; in the mode writeback it goes to the cache; in the mode writethrough it goes
/// through.
pub fn decide(mode: Mode, overlaps_dirty: bool, streak: u64, cutoff: u64) -> Path
    ensures { first_fit (rules_for mode overlaps_dirty streak cutoff) ≡ Some result }
{
    if overlaps_dirty {
        return Path::Writeback;
    }
    match mode {
        Mode::None | Mode::Writearound => Path::Around,
        _ if is_long(streak, cutoff) => Path::Around,
        Mode::Writeback => Path::Writeback,
        Mode::Writethrough => Path::Through,
    }
}

/// Whether a read puts what it took from the backing device into the cache: in each mode but none,
/// unless the `streak` in sectors is at least the `cutoff`, and that is above 0.
pub fn fills(mode: Mode, streak: u64, cutoff: u64) -> bool
    ensures { result ≡ fills mode streak cutoff }
{
    mode != Mode::None && !is_long(streak, cutoff)
}
