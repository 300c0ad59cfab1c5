//! What a seat knows of new nodes that it wrote and that nothing names yet. It has laws, and nothing
//! that runs.
//!
//! A change of the tree names its new nodes once they stand on the device, and until then nobody else
//! may come to them: else a change would name what another seat wrote over. The seat that changes
//! the tree keeps it in hand, and so each new node stays as it was written, until one barrier makes
//! all of them stable.
//!
//! Read `specs/` in this order: Draft, Laws.
#![tactic(auto)]

pub mod laws;
