//! All parts of a pair in memory, as a run over it begins with them.
//!
//! A pair that was surveyed is known to fit together, but little of it is in memory in the form in
//! which a run changes it. What is missing is read here: the inner nodes once more, and those leaves
//! of which the journal has keys; the buckets, their lists and the journal are worked out of what the
//! survey has. Nothing is written, so whoever reads a pair and then goes no further, because a call
//! failed or memory ran out, leaves it as it was.
//!
//! Of devices that tell what they hold the parts are the pair's; and some things hold of the parts
//! whatever the devices tell, as that the lists are of the buckets: without these no run may begin.
#![tactic(auto)]

mod loading;

pub use loading::{Loaded, load};
