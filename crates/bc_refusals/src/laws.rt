//! Which refusals of a read don't come over a sound pair, each law the contract of a function.
ghost use Rattle.bc_refusals.specs.Laws.{LawLost, LawMissing, LawNode, LawOutside};
ghost use Rattle.bc_refusals.specs.Lines.{LawLine, LawNoNode, LawPiece};
ghost use Rattle.bc_refusals.specs.Made.{LawReads};
ghost use Rattle.bc_refusals.specs.Room.{LawBegun, LawBusy, LawNotBusy, LawRoom, LawStays, LawStill};
ghost use Rattle.bc_refusals.specs.Runs.{LawGoesOn, LawOpened};

use bc_disk::disk::Disk;

/// No sector is missing: the tree has a leaf with all sectors of a piece, and so has the slot of
/// its part that has the leaf.
pub fn law_missing<C: Disk, B: Disk>(_cache: &C, _backing: &B)
    ensures { LawMissing C.facts B.facts }
{}

/// No leaf of the tree lies outside the device's buckets.
pub fn law_outside<C: Disk, B: Disk>(_cache: &C, _backing: &B)
    ensures { LawOutside C.facts B.facts }
{}

/// No dirty data is lost: its bucket wasn't used anew. And what is read of the cache device lies
/// within it.
pub fn law_lost<C: Disk, B: Disk>(_cache: &C, _backing: &B)
    ensures { LawLost C.facts B.facts }
{}

/// What is read where a leaf of the tree stands is a leaf of its range, where what the run brought
/// to leaves is well made.
pub fn law_node<C: Disk, B: Disk>(_cache: &C, _backing: &B)
    ensures { LawNode C.facts B.facts }
{}

/// A part that has more slots than leaves for which keys wait has one into which another leaf may
/// come.
pub fn law_room()
    ensures { LawRoom }
{}

/// A part with which a run begins has four slots more than that.
pub fn law_begun<C: Disk>(_cache: &C)
    ensures { LawBegun (C.facts _cache.now) }
{}

/// What a seat does that reads touches no leaf.
pub fn law_reads()
    ensures { LawReads }
{}

/// A leaf that no event touches is as it was at the opening.
pub fn law_still()
    ensures { LawStill }
{}

/// So a part that is as it was when the run began has the room that it had.
pub fn law_stays()
    ensures { LawStays }
{}

/// A part is busy only where it hasn't that room.
pub fn law_busy<C: Disk, B: Disk>(_cache: &C, _backing: &B)
    ensures { LawBusy C.facts B.facts }
{}

/// So none is, as long as no event touches a leaf and the part is as it was when the run began.
pub fn law_not_busy<C: Disk, B: Disk>(_cache: &C, _backing: &B)
    ensures { LawNotBusy C.facts B.facts }
{}

/// So a piece isn't refused for what the index is like.
pub fn law_piece<C: Disk, B: Disk>(_cache: &C, _backing: &B)
    ensures { LawPiece C.facts B.facts }
{}

/// And a line isn't.
pub fn law_line<C: Disk, B: Disk>(_cache: &C, _backing: &B)
    ensures { LawLine C.facts B.facts }
{}

/// Nor for a node.
pub fn law_no_node<C: Disk, B: Disk>(_cache: &C, _backing: &B)
    ensures { LawNoNode C.facts B.facts }
{}

/// A run over a sound pair that was opened is one of which the laws above speak.
pub fn law_opened<C: Disk, B: Disk>(_cache: &C, _backing: &B)
    ensures { LawOpened C.facts B.facts }
{}

/// And it stays one.
pub fn law_goes_on<C: Disk, B: Disk>(_cache: &C, _backing: &B)
    ensures { LawGoesOn C.facts B.facts }
{}
