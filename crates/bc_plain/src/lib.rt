//! Slow and plain functions whose contracts are the definitions themselves. Tests run them beside
//! the real program, so that a wrong definition shows as a wrong number.
#![tactic(auto)]

pub mod alloc;
pub mod bucket;
pub mod device;
pub mod extent;
pub mod fill;
pub mod flight;
pub mod history;
mod image;
pub mod journal;
pub mod line;
pub mod mode;
pub mod reserves;
mod slot;
pub mod vector;
