//! The steps of a seat: one function for each deed of the core that it does.
//!
//! A step takes the parts that its deed changes, if they aren't in hand, makes its call of a device,
//! commits the deed and gives those parts back. It asks only what no other seat can make false: what
//! the seat noted of its own deeds, and what the parts in its hand stand for; so it may be called
//! whatever others do meanwhile. A call that fails is committed as that by the same step, and no
//! step calls twice: so each call of a device is one deed of the run, and nothing is tried again
//! unseen.
#![tactic(auto)]

pub mod backing;
pub mod claims;
pub mod flush;
pub mod promise;
pub mod run;
pub mod said;

// Passed on, so that a crate above need not list these.
pub use bc_hand;
pub use bc_hand::bc_machine;
