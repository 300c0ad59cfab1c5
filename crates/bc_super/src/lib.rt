//! Superblocks: what a device says of itself from its sector 8 on.
#![tactic(auto)]

pub mod backing;
pub mod cache;
pub mod division;
pub mod error;
pub mod fields;
pub mod flags;
pub mod head;
pub mod laws;
pub mod layout;
pub(crate) mod list;
pub(crate) mod mode;
pub mod show;
pub mod state;
pub(crate) mod store;
