//! How a pair with a cache is opened for a run, and how it is closed.
//!
//! A run begins over what was read of the pair. Before that the backing device must say that its
//! cache may have what it lacks, since from the first request on that may be so; and it says so
//! before the run begins and not within it, since no step of a run writes a superblock. Then the
//! run's first seat puts an entry into the journal. A power cut may come anywhere on the way: what
//! it leaves is a sound pair that shows what the pair showed, and that is what each contract here
//! says of both devices together.
//!
//! Nothing is written before all that can be refused has been: the parts are in memory, and the
//! newest entry is one behind which another can come.
//!
//! Read `specs/` in this order: Open, Close, Finish, Idle, Laws.
#![tactic(auto)]

mod closing;
mod finishing;
mod idle;
pub mod laws;
mod odd;
mod opening;

pub use bc_dirty::marks::has_dirty;
pub use closing::{CloseError, Closed, close};
pub use finishing::{FinishError, Finished, finish};
pub use idle::{Idled, open_and_close};
pub use opening::{NotOpened, open};

// Passed on, so that a crate above need not list these.
pub use bc_dirty;
pub use bc_loaded;
