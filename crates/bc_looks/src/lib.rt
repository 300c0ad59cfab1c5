//! What a leaf in memory tells of the index. It has laws, and nothing that runs.
//!
//! A seat that reads looks at the leaf of its sectors: where the leaf's last key of a sector points,
//! there the sector's data lies. That is so because the keys of a leaf say what the index of the core
//! says, because the core looks for a sector in just the leaf of the tree whose range has it, and
//! because a pointer's generation is at most 96 behind its bucket's, so that a byte is enough to tell
//! one from another. None of this is seen from the leaf alone.
//!
//! Read `specs/Looks`.
#![tactic(auto)]

pub mod laws;

// Passed on, so that a crate above need not list these.
pub use bc_machine;
