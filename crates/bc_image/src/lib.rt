//! What a pair of devices holds, and whether it is sound.
//!
//! A cache keeps its promises only if whatever a crash leaves can be opened again and then shows what
//! its users may see. So all that is said here is said of two images, and of no device: it holds of
//! what the devices read now as of each image that they may leave. What is read is a relation, which
//! at most one reading meets; nothing here is the way of a program.
#![tactic(auto)]

pub mod laws;
