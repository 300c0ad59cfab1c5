//! What the program puts to its standard output: the lines of answers, then one line of a message;
//! and with which status it ends.
#![tactic(auto)]

pub mod answers;
pub mod message;
pub mod put;
pub mod status;
#[cfg(test)]
mod tests;
