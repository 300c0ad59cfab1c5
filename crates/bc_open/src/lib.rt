//! How a pair with a cache is opened and closed.
//!
//! A pair that is opened is read whole but for its data, and its parts are held in memory: the tree,
//! what is known of each bucket, the lists of those that are ready, and the journal. Only then is
//! anything written, and it is little: an entry of the new run in the journal, and in the backing
//! device's superblock that its cache may have what it lacks. A pair that is closed says there
//! whether that is so. A power cut may come anywhere on the way; what it leaves is a sound pair that
//! shows what the pair showed, and that is what each contract here says of both devices together.
//!
//! Read `specs/` in this order: Left, Open, Close, Idle.
#![tactic(auto)]

mod close;
mod idle;
mod open;

pub use close::close_pair;
pub use idle::open_and_close;
pub use open::{Opened, open_pair};
