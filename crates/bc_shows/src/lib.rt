//! What a crash leaves of both devices shows what it may show, read by the formats. It has
//! definitions and laws, and nothing that runs.
//!
//! A reader that comes up after a crash has two images, and reads them by what the formats say
//! (`bc_image`): journal, tree and generations give each sector a key, and the key says on which
//! device the sector's value is. The laws on runs (`bc_known`) say that what a crash leaves shows
//! allowed values, but in the words of their machine. So the two are tied here, sector by sector.
//!
//! They differ in one thing that matters. Whether a key is stale is a question about the bucket in
//! which its data lies. The formats ask it of the bucket into which the key's pointer points, and
//! the machine of the bucket in which the sector's own place lies. For a key that reaches over a
//! bucket's end these aren't the same, and a raise of the second bucket would then show the new
//! data of somebody else. So a key has to lie in one bucket: that is asked of the keys that the
//! opening has, and of each that comes in with the run, which is enough (`bc_origin`).
//!
//! The premise is the one on torn records, of records of the formats (`bc_facts`).
//!
//! Read `specs/` in this order: On (a run on a device), Laws, Events (the same of runs of events),
//! Teeth (that keys have to lie in one bucket).
#![tactic(auto)]

pub mod laws;
