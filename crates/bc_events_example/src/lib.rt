//! Runs of events with a cache exist. It has definitions and laws, and nothing that runs.
//!
//! The laws of `bc_events` speak of each run of events from a sound opening. What an event is, and
//! what it asks, is a table: with one row that asks too much, or that gives acts which never go
//! together, fewer runs exist, and the laws hold all the more. So here are runs, step by step. In
//! one a bucket is raised and its generation written, a new leaf and a new root take the place of
//! the old ones under an entry that names both with the new chain, data is placed in the raised
//! bucket, its key comes into the new leaf and is durable, and the line's write is acknowledged as
//! forced (`example_exists`). The other goes on from there, by a trace round, a read, a flush, a
//! write-back, data of the backing device that is kept, and a barrier that fails: each kind of
//! event is in it (`each_deed_exists`).
//!
//! The first is the run of `bc_known_example`, as far as it goes, done by events: what is unused
//! follows from the nodes that come and go, which leaf a sector has from the leaves that come, and
//! a key's version from its byte.
//!
//! Read `specs/` in this order: Example, Uses.
#![tactic(auto)]

pub mod laws;
