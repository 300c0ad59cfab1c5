//! What the core says of an entry that names a new chain of priority sets.
//!
//! A chain says the generation of each bucket, and a raised bucket may be taken again only once a
//! durable entry names a chain with its new one. That entry is sealed as any other, but for what it
//! names; and the core asks that the sets stand in the buckets that it names, lead from one to the
//! next, and have the generations that the buckets in memory have just then. So a seat keeps the
//! buckets in hand from the first set on until the entry is sealed.
//!
//! Read `specs/` in this order: Chained, Laws.
#![tactic(auto)]

pub mod laws;

// Passed on, so that a crate above need not list these.
pub use bc_chains;
pub use bc_chains::bc_machine;
pub use bc_renew;
