//! What tells of dirty keys, each law the contract of a function.
ghost use Rattle.bc_dirty_laws.specs.Dirty.{LawBeyond, LawInside, LawLeaf, LawMarked, LawStays};

/// A leaf in a slot tells of each of its sectors whether the last key is dirty.
pub fn law_leaf()
    ensures { LawLeaf }
{}

/// Where no bucket is marked as dirty, no sector's last key is.
pub fn law_marked()
    ensures { LawMarked }
{}

/// Behind the end of the tree no sector has a key.
pub fn law_beyond()
    ensures { LawBeyond }
{}

/// A sector with a dirty key is one of the backing device.
pub fn law_inside()
    ensures { LawInside }
{}

/// Reads of nodes and barriers of the backing device bring no keys and take none away, and neither
/// do such calls where they fail.
pub fn law_stays()
    ensures { LawStays }
{}
