//! What a run over a pair that was opened leaves of it, wherever its devices stop.
//!
//! A run's events are told by its parts, and its devices stand for what the events leave. The pair
//! that was opened is known by what was read of it. So the laws here take all three together, and
//! say of the images that a crash may leave that they are a sound pair again, and what each sector
//! of it may show.
//!
//! Read `specs/` in this order: Events, Laws, Finished.
#![tactic(auto)]

pub mod laws;

// Passed on, so that a crate above need not list these.
pub use bc_recoverable::bc_machine;
pub use bc_session;
pub use bc_session::bc_loaded;
