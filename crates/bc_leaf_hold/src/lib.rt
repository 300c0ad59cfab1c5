//! A leaf in memory is held in its slot, and let go again.
//!
//! A leaf that a change of the tree replaces stays in its slot until the change is over: other
//! leaves come into slots meanwhile, and its keys have to be found. So whoever is to change it holds
//! it first, and who gave the change up lets it go, while the tree is at rest. Neither is an event:
//! only the slot tells of it, and what is in hand stands for what it stood for.
//!
//! Read `specs/Hold`.
#![tactic(auto)]

pub mod hold;
