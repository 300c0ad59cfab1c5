//! The running state of a machine in parts, for any machine.
#![tactic(auto)]

pub mod machine;
pub mod not_made;
pub mod parts;
mod rules;
pub mod seat;
mod slots;
mod steps;
mod table;
#[cfg(test)]
mod tests;
