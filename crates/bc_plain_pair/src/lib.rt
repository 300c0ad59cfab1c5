//! What a pair shows and whether it is sound, computed slowly and plainly from the bytes of its two
//! devices: the contract of a function is a definition of `bc_image`.
//!
//! A program that opens a pair has an index, counts and a walk that takes no bucket twice; a wrong
//! definition could hide behind all of that, since what is proved of it speaks of the definition
//! alone. So here stands the shortest program for each definition, and tests run both beside each
//! other on the same bytes.
//!
//! Each part of soundness, the journal's room and whether the pair is sound are so computed. Which
//! part fails first is told by code that no contract binds (`first`, `search`).
#![tactic(auto)]

pub mod bytes;
pub mod chain;
pub mod children;
pub mod data;
pub mod editor;
pub mod first;
pub mod layouts;
pub mod node;
pub mod parts;
pub mod pointers;
pub mod ranges;
pub mod reading;
pub mod ring;
pub mod seal;
pub mod search;
pub mod shown;
pub mod sound;
pub mod supers;
pub mod uses;
pub mod uuids;
