//! The leaves of the index by their ranges and numbers, as the nodes above them know them.
//!
//! Each sector of the backing device lies in one leaf. A leaf is known by a number, since it moves:
//! a leaf that is read from the device is written elsewhere before it takes a set, one that is full
//! is split, and small ones are merged. Its keys, its lock and what waits for it are found by its
//! number, and the number by the sector. So the numbers are kept small, each new leaf getting the
//! least one that no leaf has; and while a change is under way, the leaves that it takes away have
//! theirs still, so that those that come are never taken for them.
#![tactic(auto)]

mod exchange;
pub mod laws;
mod leaf;
mod leaves;
mod numbers;
mod row;

pub use exchange::Exchange;
pub use leaf::LeafRange;
pub use leaves::Leaves;
