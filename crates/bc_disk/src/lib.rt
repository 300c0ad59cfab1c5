//! The outside as traits: disks, sources of bytes and sinks, with what a crash may leave; each of
//! them in memory, as tests need it; and the model of a device that any disk stands for.
#![tactic(auto)]

pub(crate) mod bytes;
pub(crate) mod calls;
pub mod chain;
pub mod crash;
pub mod disk;
pub mod gens;
pub mod geometry;
pub mod laws;
pub mod log;
pub mod mem_disk;
pub mod mem_sink;
pub mod mem_source;
pub mod modelled;
pub mod stream;
#[cfg(test)]
mod tests;
