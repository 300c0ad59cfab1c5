//! A leaf of the index and the journal as plain lists, for tests.
//!
//! A leaf in memory has the last keys of its sets in an extent map, and a journal has the place of
//! its next entry. That the lists behind them are never looked at again is what makes both fast,
//! and what could go wrong unseen: what is proved of a map speaks of the definition of a last key
//! alone. So here a leaf is its sets and the keys that were added since, a journal is its entries'
//! numbers and the keys that wait, and each question is answered from the whole list. Tests run
//! both beside the real ones.
#![tactic(auto)]

pub mod journal;
pub mod keys;
pub mod leaf;
