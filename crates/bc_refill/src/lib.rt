//! A refill: buckets that nothing needs come onto the lists from which they are taken.
//!
//! A cache never empties a bucket. It gives one up whole: the bucket's generation is raised, which
//! makes each pointer into it stale. Were it filled anew at once, a crash could bring the old
//! generation back, and old keys would show the new data. So the raised generations are written
//! first, into a chain of priority sets in buckets of its own, and an entry that names the chain is
//! made durable; only then the raised buckets may be taken.
//!
//! A chain that came half way would keep its buckets for nothing, and there are just as many as two
//! chains have. So whatever may be missing is looked up before: memory, room for the deeds, a
//! number and a place for the entry; then the chain's buckets, all of them or none. From then on
//! only a fault or a halt is in the way, and behind these no bucket is needed any more.
//!
//! Read `specs/` in this order: Hands, Taken, Sets, Named, Rooms, Raised, Most, Refill; then
//! `refill`, and `take`, `renew`, `name`, `sets`, `finish`.
#![tactic(auto)]

pub mod answer;
mod finish;
mod look;
mod name;
pub mod refill;
mod renew;
mod room;
mod sets;
mod take;

// Passed on, so that a crate above need not list these.
pub use bc_new_chain;
pub use bc_new_chain::{bc_hand, bc_machine, bc_place};
pub use bc_ready;
