//! Leaves as an opening has them: read from the device, with the journal's keys that may be in none of
//! their sets.
#![tactic(auto)]

mod add;
mod leaf;

pub use add::add_keys;
pub use leaf::{key_of, reload};
