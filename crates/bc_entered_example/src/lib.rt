//! What is asked of an opening's entry, met. It has definitions and laws, and nothing that runs.
//!
//! The laws on the entry that an opening writes stand on premises: that it fits behind what was
//! read, that a machine is ready to take it, that no torn part of it is read as a whole entry by
//! chance. A premise that nothing meets makes a law of nothing. Here a pair that was just made anew
//! meets them, byte by byte, with the entry in either of the places where one may go. That it is
//! never torn by chance there is no luck: it takes one block, its header lies in the first sector,
//! and what it is written over is zeros.
//!
//! Read `specs/` in this order: Laws.
#![tactic(auto)]

pub mod laws;
