//! What the metadata of a cache device may read as, whenever the machine that writes it stops.
//!
//! The index of a cache lives in two forms at once: a tree of nodes, whose sets are written
//! behind each other, and a journal, whose entries hold what the tree lacks. A crash leaves any
//! mixture of what was under way: of a set or an entry that was sent all sectors, some or none.
//! So nothing that a crash may find may be needed before it is durable, and nothing that an older
//! record still names may be written over. That is a matter of order alone: an entry is *sealed*
//! with what it names, a barrier makes firm what was sent before, the entry is *sent*, and a
//! second barrier makes it *durable*. From the first barrier on a crash may find either entry, so
//! both have to read right until the second: the tree below each one's root with the entries that
//! it needs, whichever of its two contents each node shows, and the chain of priority sets that
//! it names, whose buckets nobody may write until a chain after it is *ready*.
//!
//! A bucket that is used again still has the sets of the node that was there, and a reader would
//! take them for further sets of the new one if their numbers matched. So a node's first set is
//! written with zeros over the rest of the node. Once a barrier stands behind it, a crash finds
//! nothing behind a node's sets but zeros and what was sent there since, and of that a mixture. That
//! no such mixture reads as a whole record by chance is the premise of the laws.
//!
//! This crate is a machine of these orders, without code: its state says what may stand where,
//! its acts carry the values that they write, and its laws are contracts of functions with empty
//! bodies. It knows records by facts alone (`specs/Facts`): no proof here sees a byte or a
//! checksum. Data and all else that a cache device holds are writes outside what the metadata
//! needs.
//!
//! Read `specs/` in this order: Keys, Facts, Entries, Tree, Layout, Chain (what a reader finds),
//! Events and Records (what it may read as), Places (where it stands on the device), Acts (who
//! holds a bucket, and the chains), Laws, Example.
#![tactic(auto)]

pub mod laws;
