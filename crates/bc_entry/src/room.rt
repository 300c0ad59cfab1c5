//! The memory that the write of an entry takes.
ghost use Rattle.std.specs.Prelude.{◌≡◌, ◌*◌, ◌/◌, ◌≤◌, [], length, vec_capacity};
ghost use Rattle.bc_model.specs.Sector.{values_of};

use bc_model::values::Values;
use std::alloc::{AllocError, Global};

/// The most bytes of an entry: 64 sectors.
const MOST_BYTES: usize = 32768;

/// The memory for the values of an entry that is written. It is taken before the entry is sealed: a
/// sealed entry that isn't written would keep every later one from being sealed.
#[derive(Drop)]
pub struct EntryRoom {
    bytes: Vec<u8>,
    ghost empty: { bytes.items ≡ [] },
    ghost room: { 32768 ≤ vec_capacity bytes },
}

impl EntryRoom {
    /// Takes it.
    pub fn new(alloc: Global) -> Result<EntryRoom, AllocError> {
        let bytes = Vec::with_capacity(alloc, MOST_BYTES)?;
        Ok(EntryRoom { bytes })
    }

    /// The values of an entry's bytes. They are no sector's pattern, so any number does for the
    /// first one.
    pub(crate) fn values(self, bytes: &[u8]) -> Values
        requires whole { length bytes.now ≡ 512 * (length bytes.now / 512) }
        requires few { length bytes.now ≤ 32768 }
        ensures { result ≡ values_of bytes.now }
    {
        let EntryRoom { bytes: mut own } = self;
        let Ok(()) = own.extend_from_slice(bytes) else {
            unreachable!()
        };
        Values::from_sectors(0, own)
    }
}
