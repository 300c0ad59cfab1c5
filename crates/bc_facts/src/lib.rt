//! What the machine of metadata takes for granted of records, shown of the real ones.
//!
//! The machine of `bc_meta` never sees a byte: it asks of records that they take whole blocks, that
//! what was written is found, that what is found rests on its own sectors, and of a node's sets that
//! none is found in zeros. If a real record didn't do one of these, every law over the machine would
//! speak of a device that nobody has. So
//! here the machine's layout is made of the formats: journal entries, sets of keys and priority
//! sets, each as the crate of its format reads it, and of what it then finds in an image it is
//! shown that it is what the formats say, both ways.
//!
//! Writing is a relation, since pads are free. Reading is decided: at each place a record stands or
//! none does, so each image that a crash may leave has a reading.
//!
//! Read `specs/` in this order: Whole (a record is read whole at a place), Seen (what the machine
//! sees of a record), Layout (how it reads a device), Torn (the premise on torn records).
#![tactic(auto)]

pub mod laws;
