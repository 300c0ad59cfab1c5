//! The step of a trace round that walks a leaf.
//!
//! A round learns by a walk over all leaves which keys point into each bucket: whether some are
//! dirty, how many sectors they are, and how old the oldest one is. A leaf is walked with its part and
//! the buckets in hand, so that no key comes into it meanwhile, and no bucket is given up. The leaves
//! are walked in the order of their sectors: so one number tells which are walked, the sector that
//! the round has come to, and a leaf is walked only where it begins just there.
//!
//! Keys of a leaf don't overlap, and what no key has points nowhere. So what is counted of the keys is
//! what the core sees of the sectors, each of which is in one leaf alone.
//!
//! Read `specs/Pieces`, then `specs/Steps`, then `leaf`.
#![tactic(auto)]

mod count;
pub mod leaf;

// Passed on, so that a crate above need not list these.
pub use bc_mark;
pub use bc_mark::{bc_deed, bc_hand, bc_machine, bc_place};
