//! Traces and their answers: the text of a trace, the text of an answer, and which answers and
//! entries of the history serve a trace. A trace is read whole before anything is served, and the
//! first line that isn't in the grammar refuses all of it: so a run never ends in the middle of a
//! trace for the trace's own fault, and its answers are those of the lines that were read.
#![tactic(auto)]

pub mod answer;
mod draft;
pub mod form;
pub mod generator;
mod last;
pub mod laws;
pub mod line;
mod parse;
pub mod print;
pub mod reason;
pub mod script;
mod seen;
mod simple;
pub mod summary;
pub mod trace;
mod unserved;
