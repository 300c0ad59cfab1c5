//! Places for data on the cache device, taken and pinned by deeds of a seat.
//!
//! Who writes through the cache writes to a place that nobody else may write or name, in a bucket
//! that isn't given up meanwhile: else two lines would share a sector, or a key would point into a
//! bucket that another seat fills anew. So the place is pinned by a deed before it is written, and
//! the seat knows from then on, with the buckets in hand or without, that its sectors are its own and
//! which generation their bucket has.
//!
//! The step `pin` gives a seat a place, `write` writes values to it, and `unpin` lets it go; `keys`
//! makes the keys that name places, and `name` is what their insertion makes of the buckets. The laws
//! say what a seat goes on to know of its places, whatever it and others do.
//!
//! Read `specs/` in this order: Next, Place, Written, Named, Laws; then `pin`, `write`, `keys`, `name`,
//! `unpin`.
#![tactic(auto)]

pub mod keys;
pub mod laws;
pub mod name;
pub mod pin;
pub mod unpin;
pub mod write;

// Passed on, so that a crate above need not list these.
pub use bc_deed;
pub use bc_deed::{bc_hand, bc_machine};
