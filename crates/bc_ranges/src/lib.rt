//! What a crash leaves of the tree's nodes is in order, read by the formats. It has definitions and
//! a law, and nothing that runs.
//!
//! A reader of a pair walks the tree from the root, and takes each key where it finds it: so a key
//! that lies outside its node's range would be found by some walks and lost by others, and two nodes
//! in one bucket would be torn by each other's sets. The machine of the parts (`bc_leaves`) knows
//! which slot each child is, and which range each slot has, for whatever a crash leaves of the sets.
//! So the walk of a reader is followed slot by slot, and what is known of slots is said of nodes.
//!
//! What the machine doesn't look at, as the length that a child's key tells, is asked of what comes
//! in with the run, each set and each entry by itself: a program has it in its hands.
//!
//! Read `specs/` in this order: Made (what is asked of acts), Laws.
#![tactic(auto)]

pub mod laws;
