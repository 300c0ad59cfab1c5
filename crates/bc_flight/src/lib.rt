//! Requests in flight: which seat has claimed which sectors.
#![tactic(auto)]

pub mod candidate;
pub mod claim;
pub mod flight;
