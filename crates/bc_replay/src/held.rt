//! What was read of a pair.

use crate::supers::Supers;
use crate::uses::Use;
use bc_disk::gens::Gens;
use bc_entries::Journal;
use bc_extent::Extents;
use bc_walk::Visit;

/// What a pair holds.
#[derive(Drop)]
pub struct Survey {
    /// The superblocks, and how the cache device is divided.
    pub supers: Supers,
    /// The journal.
    pub journal: Journal,
    /// The generations that the journal's newest entry names.
    pub gens: Gens,
    /// The nodes of the index, in the order of a walk from the root: each one was met.
    pub seen: Vec<Visit>,
    /// For each sector of the backing device the last key, those of the journal's entries included. A
    /// key without pointers is kept like any other.
    pub index: Extents,
    /// What each bucket is used for.
    pub uses: Vec<Use>,
}
