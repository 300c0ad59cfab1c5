//! Sectors, their values and the history of a run: what all promises of the cache are made of.
#![tactic(auto)]

pub mod history;
pub mod kinds;
pub mod laws;
pub mod run;
pub mod sector;
pub mod values;
