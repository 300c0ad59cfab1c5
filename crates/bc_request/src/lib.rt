//! What a request does in a run with a cache.
//!
//! A read is cut at each multiple of 256 sectors, where leaves of the index may end, so that one
//! leaf has all sectors of a piece and no claim is held for longer than a piece takes.
//!
//! A piece of a read is claimed with others, so that nobody writes there meanwhile; looked up;
//! read, each run of it from the device that has it; and answered, once no bucket from which it was
//! read can have been used anew. Then the claim goes. What the seat did on the way is said by its
//! own deeds, each of them, in order, whether the piece was answered or not. The first piece that
//! isn't answered ends the line, and those before it stand in the history.
#![tactic(auto)]

pub mod error;
pub mod piece;
pub mod read;

// Passed on, so that a crate above need not list these.
pub use bc_job;
pub use bc_reader;
pub use bc_reader::{bc_fetch, bc_reads};
