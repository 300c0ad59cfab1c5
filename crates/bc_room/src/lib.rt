//! Room for keys in the parts in hand, before keys come into them.
//!
//! The event by which a key comes into a leaf takes no memory of its own, so that it can't fail
//! once the device has what the key points to. What memory it needs is taken before.
#![tactic(auto)]

pub mod laws;
pub mod leaf;
