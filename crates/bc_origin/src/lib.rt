//! Where the keys come from that a crash leaves. It has definitions and a law, and nothing that
//! runs.
//!
//! What the index says of a sector is what the newest key says that has it, and the laws below
//! speak of that alone. Some questions are of the keys themselves: whether each lies whole in one
//! bucket, or points at data only. A key that is written says yes to these, since its writer asked
//! them. But a crash leaves entries and sets of nodes that were written at different times, some of
//! them only in part, over nodes that stood there before; so who reads such an image has to know
//! that no key is found there that nobody wrote.
//!
//! That is the law: each key that is read of what a crash leaves was the opening's, or came in with
//! an act of the run. So whatever holds of the opening's keys, and of each key that comes in, holds
//! of all that is ever read.
//!
//! It rests on which nodes are ever looked at. A bucket that was taken for something new has
//! whatever stood there, and so has one in which a first write failed; but no tree that a crash may
//! find leads there, or else one that reads nothing there would be whole too.
//!
//! Read `specs/` in this order: Keys, Laws.
#![tactic(auto)]

pub mod laws;
