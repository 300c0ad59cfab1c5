//! A pair that a crash left is opened again. It has laws, and nothing that runs.
//!
//! What is proved of a run on a pair would be worth little if it held of the first run alone: a
//! device is used for years, is opened after each crash, and what was acknowledged before the one
//! before last has to be there still. So whatever a crash leaves of a run on a sound pair has to be
//! such a pair again, which some run may begin on, and what that run begins with has to be what the
//! run before it may show.
//!
//! This crate joins what `bc_opening` says (each sound pair is opened), what `bc_sound` says (what
//! a crash leaves is a sound pair) and what `bc_shows` says (it shows allowed values).
//!
//! Read `specs/` in this order: Laws.
#![tactic(auto)]

pub mod laws;
