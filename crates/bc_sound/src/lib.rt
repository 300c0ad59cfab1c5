//! What a crash leaves of a sound pair is a sound pair again, in the terms of the formats. It has
//! definitions and laws, and nothing that runs.
//!
//! A cache that comes up after a crash serves a pair only if it is sound (`bc_image`), since what
//! is shown rests on that. So if a crash could leave something else, one power cut would lose all:
//! the data would still be there, and no program would serve it. Here it is proved that none can.
//! Each part of soundness is what a crate below says of a crash pair: what it shows and that both
//! devices agree (`bc_shows`), how old its keys are and what its buckets are used for (`bc_uses`),
//! its nodes and what its entry names (`bc_ranges`), strays in the journal (`bc_remains`). What is
//! left is what nobody writes, the superblocks and the uuid table.
//!
//! The number of the newest entry is left out: a run may use up the last numbers, and a pair
//! without any is sound but for that.
//!
//! Read `specs/` in this order: Still, Laws, Events, Teeth.
#![tactic(auto)]

pub mod laws;
