//! The journal goes on where an earlier run left it.
//!
//! What stands in the journal when a pair is opened is needed until the nodes have it, and the first
//! thing that the new run does is to write an entry of its own. So that entry must not lie over one
//! that is needed: it goes behind the newest entry, in that one's bucket, also where entries of an
//! earlier turn of the ring stand there; and a bucket is begun again only where each entry that is
//! found in it is older than all that is needed, also one that isn't in the list of those that count.
#![tactic(auto)]

mod behind;
mod journal;
mod numbers;

pub use journal::resume;
