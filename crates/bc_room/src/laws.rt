//! What is in hand behind a reservation.
ghost use Rattle.bc_room.specs.Room.{LawReserved};

use bc_disk::disk::Disk;

/// A part with leaves that has more room stands for the same leaves.
pub fn law_reserved<C: Disk, B: Disk>(_cache: &C, _backing: &B)
    ensures { LawReserved C.facts B.facts }
{}
