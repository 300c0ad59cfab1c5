//! What a deed leaves alone: each law is the contract of a function.
ghost use Rattle.bc_shares.specs.Laws.{LawJournal, LawBuckets, LawSpine, LawSlot, LawLeaf};

/// Only a deed that brings keys, seals or makes durable changes the share of the journal.
pub fn law_journal()
    ensures { LawJournal }
{}

/// Only a deed that takes, pins, raises, lets go, brings keys, names a chain, installs or does a
/// step of a round changes the share of the buckets.
pub fn law_buckets()
    ensures { LawBuckets }
{}

/// Only a deed that writes a new node, or begins, makes or ends a change of the tree, changes the
/// share of the spine.
pub fn law_spine()
    ensures { LawSpine }
{}

/// Only such a deed as changes the share of a leaf changes what its slot has, or that it has nothing.
///
/// The premise of an install is that it names the leaves that leave and come.
pub fn law_slot()
    ensures { LawSlot }
{}

/// Only a deed that brings keys into a leaf, writes a set of it, or takes or brings it by a change of
/// the tree, changes the share of that leaf. So no barrier, entry or other leaf's write does.
///
/// The premise of an install is that it names the leaves that leave and come.
pub fn law_leaf()
    ensures { LawLeaf }
{}
