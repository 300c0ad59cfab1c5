//! The mode that a backing device's superblock names.
ghost use Rattle.bc_super.specs.Super.{IsMode, mode_number};

use bc_mode::Mode;

// The mode that bits 0 to 3 of a backing device's flags name. A number above 3 counts as
// writethrough.
pub(crate) fn mode_in(flags: u64) -> Mode
    ensures { IsMode (mode_number flags) result }
{
    match flags & 0xf {
        1 => Mode::Writeback,
        2 => Mode::Writearound,
        3 => Mode::None,
        _ => Mode::Writethrough,
    }
}
