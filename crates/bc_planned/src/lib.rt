//! The new nodes of a planned change of the tree, where they stand, and what they name. It has laws,
//! and nothing that runs.
//!
//! A plan is made with places and with the first of the numbers that its new nodes get. Who writes
//! them takes one node behind the other, with the buckets at hand and the number that comes next; so
//! it has to know that the node at its turn was planned for just this place and this number. And an
//! inner node names its children by places: those of a new one are new nodes of the plan, or nodes
//! of the tree that stay.
//!
//! Read `specs/` in this order: Nodes, Placed, Laws.
#![tactic(auto)]

pub mod laws;
