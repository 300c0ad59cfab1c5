//! A trace served over the backing device alone: its lines in order by the seat of their worker,
//! and the last barrier by the seat of the call.
#![tactic(auto)]

pub mod closing;
pub mod in_order;
pub mod whole_run;

// Passed on, so that a crate above need not list these.
pub use bc_job;
pub use bc_job::bc_deed;
pub use bc_plain_laws::bc_machine;
