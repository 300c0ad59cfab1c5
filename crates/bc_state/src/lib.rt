//! Whether a backing device says that its cache may have data which it lacks.
//!
//! A backing device that is served through a cache must not be used without it while the cache has
//! data that the device lacks. So its superblock says `dirty` before the first request is served,
//! and `clean` again only once no such data is left. The state is two bits of one sector, which a
//! crash leaves old or new, never torn; and nothing else of a pair rests on them, which is what the
//! laws here say.
//!
//! Read `specs/` in this order: State, Laws.
#![tactic(auto)]

pub mod laws;
mod write;

pub use write::{in_state, write_state};
