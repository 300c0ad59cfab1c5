//! The words of a command line, and the command that they spell. Where options stand and how a
//! value is given is left to clap, whose function of the words says what was found; here stand the
//! numbers, uuids and names that may be given, each with one way to write it.
#![tactic(auto)]

mod command;
mod error;
pub mod laws;
mod mode;
mod parser;
mod read;

pub use command::{Command, Options};
pub use error::WordsError;
pub use read::read_words;

#[cfg(test)]
mod tests;
