//! What a seat knows of the nodes of the tree, of those that this run wrote, and of buckets for new
//! ones. It has laws, and nothing that runs.
//!
//! A further set of a node goes right behind the others and has their number; else a reader ends the
//! node before it, and what the set holds is lost. Where the last set ends, no seat can look up on the
//! device: a node that was read may have leftovers behind its sets that look like one more. So only
//! nodes that this run wrote get further sets, and memory counts their sectors from the first set on.
//! Here it is proved that what memory counts is where the core has the next set, and that no set of
//! such a leaf is under way once its pending keys are durable. Of a seat that changes the tree it is
//! proved what others leave it of new nodes, of their buckets and of the root that entries name, and
//! that it may install a change once it is made.
//!
//! Read `specs/Nodes`.
#![tactic(auto)]

pub mod laws;
