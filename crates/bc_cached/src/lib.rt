//! How a run over a pair with a cache begins, and how it ends.
//!
//! A run begins with what an opening read of the pair, held in memory, and with both devices. No
//! step can tell of those parts whether the pair was sound: what each of them stands for is said of
//! every sound opening of the core that they stand for together. So a run may be begun over any
//! pair, and a law says that one over a sound pair is seen from such an opening.
//!
//! Read `specs/` in this order: Begun, Laws.
#![tactic(auto)]

pub mod laws;
pub mod run;

// Passed on, so that a crate above need not list these.
pub use bc_begun;
pub use bc_begun::{bc_machine, bc_regrow};
pub use bc_deed;
pub use bc_deed::bc_hand;
