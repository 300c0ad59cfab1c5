//! Buckets that are ready to be filled, kept in reserve.
//!
//! A bucket may be filled only once its new generation is durable: if a crash brought the old one
//! back, old pointers would show the new data. So buckets are given up some time before they are
//! needed. They wait among the raised ones until a journal entry is durable that names priority
//! sets with their generations, and then stand on a list. There are four lists, so that what makes
//! room, as moving data, splitting a node or writing priority sets, never has to wait for room
//! itself.
#![tactic(auto)]

pub mod laws;
mod purpose;
mod reserve;
mod reserves;
mod victims;

pub use purpose::{NoBucket, Purpose};
pub use reserves::Reserves;
