//! Where the index and what goes with it stand.

use bc_key::Key;

/// What an entry names beside its keys: where the index, the table of uuids and the priorities
/// stand.
#[derive(Clone, Copy, Debug, PartialEq, Eq)]
pub struct Heads {
    /// The bucket of the table of uuids.
    pub uuid_bucket: Key,
    /// The root of the index.
    pub root: Key,
    /// How many levels of nodes lie below the root, 1 or 2.
    pub level: u16,
    /// The first priority bucket.
    pub prio: u64,
}
