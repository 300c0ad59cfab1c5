//! What the leaves of the index get of the journal's keys when a pair is opened.
//!
//! A key that is in the journal may be in no set of its leaf yet, and none but the opening knows it:
//! were it forgotten, the next entry could let the journal's bucket go, and with it the only place in
//! which the key stands. So each leaf is given the keys of all entries that count, the oldest first,
//! as keys that wait for its next set, with the number of their entry, so that the journal keeps the
//! entry until then. A key may reach over the ends of leaves, since these are cut where there are
//! many keys: then each leaf gets the part in its range.
#![tactic(auto)]

mod numbered;
mod pending;
mod piece;
mod share;

pub use numbered::{Numbered, Pending};
pub use pending::pending_of;

#[cfg(test)]
mod tests;
