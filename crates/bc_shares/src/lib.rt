//! What each part of a running cache has of the state, and which deeds leave it alone. It has
//! definitions and laws, and nothing that runs.
//!
//! The running cache is held in parts under locks, and a seat that has a part in its hand goes on
//! to know what it stands for while others commit. That is so only if the part's share of the
//! state is changed by no deed but those that hold the part. A share that is too large would have a
//! barrier wait for the journal, or a read for the buckets; one that is too small would tell its
//! holder too little to do anything. So the journal's share says that an entry is sealed, and not
//! how far its write has come, which each barrier changes; and the share of the buckets says of a
//! place whether it is pinned, and not by whom, so that a pin may become a candidate's.
//!
//! Read `specs/` in this order: Shares, Touched, Laws.
#![tactic(auto)]

pub mod laws;
