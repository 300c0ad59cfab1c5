//! Records as a reader finds them in an image: each from the first byte of a sector on, in whole
//! blocks.
#![tactic(auto)]

pub mod laws;
mod placed;

pub use placed::Placed;
