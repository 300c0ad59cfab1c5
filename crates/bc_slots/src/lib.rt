//! The leaves that a pair has in memory when it is opened.
//!
//! Leaves are shared out among parts by their numbers, so that several seats can work on the index at
//! once; each part is a node cache, and a leaf is read when it is asked for. Some leaves can't wait
//! for that: of these the journal has keys that may be in none of their sets. Whoever read such a leaf
//! later would miss these keys, and the journal could give up the entries that hold them. So an
//! opening reads these leaves at once and adds the keys. A leaf with pending keys can't leave its slot
//! until it is written, and there may be any number of them; so each part gets a slot for each of its
//! own, and four more, into which all other leaves come in turn.
#![tactic(auto)]

mod count;
mod fill;
pub mod laws;
mod leaf;
mod parts;

pub use parts::{leaf_parts, leaves_of};

// Passed on, so that a crate above need not list these.
pub use bc_regrow;
