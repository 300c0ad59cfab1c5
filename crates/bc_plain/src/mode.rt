//! The path of a piece of a write by a table of rules, and a streak by asking the requests before it.
ghost use Rattle.std.specs.Prelude.{◌≡◌};
ghost use Rattle.bc_mode.specs.Choice.{fills, first_fit, rules_for};
ghost use Rattle.bc_mode.specs.Streak as streaks;

use bc_mode::{Mode, Path, Request};

/// The path of the first rule that fits.
pub fn decide(mode: Mode, overlaps_dirty: bool, streak: u64, cutoff: u64) -> Option<Path>
    ensures { result ≡ first_fit (rules_for mode overlaps_dirty streak cutoff) }
{
    let goes_around = match mode {
        Mode::None | Mode::Writearound => true,
        Mode::Writeback | Mode::Writethrough => false,
    };
    if overlaps_dirty {
        Some(Path::Writeback)
    } else if goes_around || (0 < cutoff && cutoff <= streak) {
        Some(Path::Around)
    } else if mode == Mode::Writeback {
        Some(Path::Writeback)
    } else {
        Some(Path::Through)
    }
}

/// Whether the sectors that a read took from the backing device are put into the cache.
pub fn fills(mode: Mode, streak: u64, cutoff: u64) -> bool
    ensures { result ≡ fills mode streak cutoff }
{
    match mode {
        Mode::None => false,
        Mode::Writethrough | Mode::Writeback | Mode::Writearound => {
            cutoff == 0 || streak < cutoff
        }
    }
}

/// The streak of a request that comes behind these ones, or the greatest number of 64 bits.
pub fn streak(earlier: &[Request], request: &Request) -> u64
    ensures { result ≡ streaks.capped (streaks.streak earlier.now request.now) }
{
    let count = u64::from(request.count);
    let [before @ .., last] = earlier else {
        return count;
    };
    if last.worker != request.worker {
        return streak(before, request);
    }
    if last.first.checked_add(u64::from(last.count)) == Some(request.first) {
        streak(before, last).saturating_add(count)
    } else {
        count
    }
}
