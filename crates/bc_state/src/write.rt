//! The state in a superblock, and its writing.
ghost use Rattle.std.specs.Prelude.{◌≡◌, OnOk, OnErr};
ghost use Rattle.bc_super.specs.Super.{IsUsable};
ghost use Rattle.bc_super.specs.Writing.{AreCounted, IsBackingStored, IsBackingTorn};
ghost use Rattle.bc_state.specs.State.{IsCached, number_of, super_in};

use bc_disk::disk::{Disk, Failed};
use bc_super::backing::{BackingSuper, write_backing};
use bc_super::flags::{BEHIND_STATE, STATE};
use bc_super::state::BackingState;

/// The number that names a state.
fn number_of(state: BackingState) -> u64
    ensures { result ≡ number_of state }
{
    match state {
        BackingState::None => 0,
        BackingState::Clean => 1,
        BackingState::Dirty => 2,
        BackingState::Stale => 3,
    }
}

/// The superblock in this state, with all else as it is.
pub fn in_state(s: &BackingSuper, state: BackingState) -> BackingSuper
    ensures { result ≡ super_in state s.now }
{
    let mut changed = *s;
    changed.flags = s.flags % STATE
        + STATE * number_of(state)
        + BEHIND_STATE * (s.flags / BEHIND_STATE);
    changed
}

/// Writes the superblock of a backing device in this state, and makes it stable. It takes sector 8
/// alone, which a crash leaves whole or as it was; no other sector is written. Takes no memory.
///
/// After `Ok` it is what the device says. After `Failed` the device says it, or what it said before,
/// and a crash may leave either.
pub fn write_state<D: Disk>(
    disk: &mut D,
    s: &BackingSuper,
    state: BackingState,
) -> Result<(), Failed>
    requires usable { IsUsable (D.facts disk.old).sectors s.now }
    requires cached { IsCached state }
    ensures ok { OnOk result
        (IsBackingStored (super_in state s.now) (D.facts disk.old) (D.facts disk.new)) }
    ensures failed { OnErr result
        (IsBackingTorn (super_in state s.now) (D.facts disk.old) (D.facts disk.new)) }
    ensures counted { AreCounted 2 result (D.facts disk.old) (D.facts disk.new) }
{
    write_backing(disk, &in_state(s, state))
}
