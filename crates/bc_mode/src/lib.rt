//! Which way a request goes: into the cache, through it or around it.
//!
//! Data that is read or written once in a long run isn't worth a place in a cache, and would drive
//! out what is. So a worker's requests that follow each other on the backing device are counted as
//! one streak, and a long streak passes the cache by. What the cache has already and the backing
//! device lacks must never be passed by: a write over a dirty key goes to the cache in every mode.
#![tactic(auto)]

mod mode;
mod path;
mod streak;

pub use mode::Mode;
pub use path::{Path, decide, fills};
pub use streak::{Request, Streaks, Tail};
