//! The whole way from a trace to its answers.
#![tactic(auto)]

mod cached;
mod ending;
pub mod exit;
pub mod laws;
pub mod opening;
mod pairs;
mod serve;
pub mod stop;
pub mod top;
