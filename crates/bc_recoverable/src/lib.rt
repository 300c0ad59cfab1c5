//! What a run with a cache leaves of the pair that it was opened on.
//!
//! A run is seen by its parts in memory and by its devices; soundness and what a pair shows are
//! said of images. This crate joins both: wherever the devices of a run stop, what is left is a
//! sound pair, and each sector of it is one that the run's own history allows.
//!
//! Read `specs/` in this order: Made, Runs, Closed.
#![tactic(auto)]

pub mod laws;

// Passed on, so that a crate above need not list these.
pub use bc_dirty_laws::bc_machine;
