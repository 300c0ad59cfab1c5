//! That a seat may have a place, with a value that it wrote there.
//!
//! What a seat knows of its places is said of each state of a run. Were no run to have such a state,
//! each law on places would hold for nothing; so here is one, the run of `bc_events_example` up to
//! its data. It has a law, and nothing that runs.
#![tactic(auto)]

pub mod laws;
