//! Runs whose keys and nodes are well made. It has definitions and laws, and nothing that runs.
//!
//! Whatever a crash leaves of a sound pair is a sound pair again where what the run brought is well
//! made: its keys of data have sectors, don't begin before the first one, and lie whole in data and
//! within the device; its keys of nodes are of nodes in data, and end within the node that they are
//! in. A run that brings nothing meets that and tells nothing. Here each pair that was just made
//! anew has a run that brings a key, and a small one has runs that write a root with a child and a
//! leaf with a key, byte by byte.
//!
//! Read `specs/` in this order: Laws.
#![tactic(auto)]

pub mod laws;
