//! What the parts in memory stand for: each law is the contract of a function.
ghost use Rattle.bc_chosen.specs.Lists.{LawLists};
ghost use Rattle.bc_chosen.specs.Marks.{LawMarks};
ghost use Rattle.bc_chosen.specs.Oldest.{LawOldest};
ghost use Rattle.bc_chosen.specs.Parts.{LawChosen, LawStands};
ghost use Rattle.bc_chosen.specs.Slots.{LawSlots};
ghost use Rattle.bc_chosen.specs.Waiting.{LawWaiting};

/// The marks of buckets forbid what must not be raised: metadata, and data that is all there is.
pub fn law_marks()
    ensures { LawMarks }
{}

/// What is taken for a bucket's oldest key is at most as new as each of its keys.
pub fn law_oldest()
    ensures { LawOldest }
{}

/// What stands on the lists is spare, and a whole chain's buckets are kept.
pub fn law_lists()
    ensures { LawLists }
{}

/// Each node of the tree is in one slot, and each sector of a leaf has the leaf's.
pub fn law_slots()
    ensures { LawSlots }
{}

/// Each leaf gets back all keys of the entries that are needed, each cut to the leaf's range.
pub fn law_waiting()
    ensures { LawWaiting }
{}

/// So it is one of the choices that a program has.
pub fn law_chosen()
    ensures { LawChosen }
{}

/// And the parts stand for a sound opening of the machine.
pub fn law_stands()
    ensures { LawStands }
{}
