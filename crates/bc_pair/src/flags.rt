//! What a pair that was made says in the flags of its superblocks.
ghost use Rattle.std.specs.Prelude.{◌≡◌};
ghost use Rattle.bc_pair.specs.Made.{flags_for};

use bc_mode::Mode;
use bc_super::flags::STATE;

/// A backing device is clean, where its flags say no other state: the state of number 1.
pub(crate) const CLEAN: u64 = STATE;

/// What a clean backing device says that names a mode: the mode's number stands in the lowest bits.
pub(crate) fn flags_for(mode: Mode) -> u64
    ensures { result ≡ flags_for mode }
{
    let number = match mode {
        Mode::Writethrough => 0,
        Mode::Writeback => 1,
        Mode::Writearound => 2,
        Mode::None => 3,
    };
    number + CLEAN
}
