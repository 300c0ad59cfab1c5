//! What the leaves of the tree still need of the journal. It has laws, and nothing that runs.
//!
//! A key that came to a leaf and isn't in its sets yet lies in an entry of the journal alone, so
//! that entry is needed until the leaf's next set. An entry says which ones are needed as it is
//! sealed. Who seals can't look at all leaves, for other seats have them; it goes by the journal in
//! memory, which has a number below which no entry is needed. That this stays true whatever others
//! do follows from two things: a set takes keys away and gives none, and a key that comes in is of
//! an entry to come.
//!
//! Read `specs/Needs`.
#![tactic(auto)]

pub mod laws;
