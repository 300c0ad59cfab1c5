//! The entry that names a new chain of priority sets, as steps of a seat.
//!
//! Generations are durable in the sets of a chain, and a crash finds that chain which the newest
//! durable entry names. So a new chain is written first, into buckets of its own, and is named by an
//! entry only then; and what it frees may be used anew only once that entry is durable. The seat
//! keeps buckets, journal and cache device in hand from the first set on: so the generations that
//! were written are those of the moment of the seal, and no other seat comes between.
//!
//! Of the buckets in hand a seal changes one note alone: that a newer chain than the one in hand may
//! be named. While it stands no other chain is sealed.
//!
//! All memory is taken before the sets are written: a chain that was written, and for whose entry
//! there is no memory, would keep its buckets for nothing.
//!
//! Read `specs/` in this order: Beside, Seal, Put; then `room`, `seal`, `put`.
#![tactic(auto)]

mod names;
pub mod put;
pub mod room;
pub mod seal;

// Passed on, so that a crate above need not list these.
pub use bc_chain;
pub use bc_chain::{bc_chains, bc_deed, bc_hand, bc_machine, bc_place};
pub use bc_chained;
pub use bc_chained::bc_renew;
pub use bc_entry;
pub use bc_held;
