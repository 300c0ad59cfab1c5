//! The outside as it is: a disk over a file or a block device, a source over a reader and a sink
//! over a writer. They tell nothing of their content, and count their calls and faults.
#![tactic(auto)]

pub mod counts;
pub mod file_disk;
pub mod file_in;
pub mod file_out;
mod size;
#[cfg(test)]
mod tests;
