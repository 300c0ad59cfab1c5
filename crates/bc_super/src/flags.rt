//! Where the flags of a superblock say what, for what is written; what they say is read by methods of
//! the superblocks.

/// A cache device was set up.
pub const SET_UP: u64 = 1;

/// The lower bit of a backing device's state, so that a state stands in the flags by its number
/// times this.
pub const STATE: u64 = 1 << 61;

/// The bit behind those of the state.
pub const BEHIND_STATE: u64 = 1 << 63;
