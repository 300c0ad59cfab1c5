//! What a run of the machine on a pair is opened with. It has a definition and a law, and nothing
//! that runs.
//!
//! The machine's laws speak of runs from a sound opening, and bc_image says which pairs are sound.
//! Here the two are tied: an opening of a sound pair has both devices' data, shows what the pair
//! shows, has no other keys than those that are read of the pair, and each slot with a node has one
//! that is read there. So whatever is known of the pair's nodes, as that their keys lie in their
//! ranges, is known of the machine's.
//!
//! Read `specs/` in this order: Opening, Laws.
#![tactic(auto)]

pub mod laws;
