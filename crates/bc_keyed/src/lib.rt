//! What keys that come into a leaf make of the parts in memory. It has laws, and nothing that runs.
//!
//! A key comes into a leaf by one event, which changes three parts at once: the leaf has the key on
//! top of those that it had, and waits for the entry that will hold it; the journal has it among the
//! keys that wait; and the bucket that it points into has its mark. A step has all three parts in
//! hand, changes each by the call of its container, and gives back what stands for the state behind
//! the event. That it does is said here, part by part, whatever the event is that brings the keys.
//!
//! Read `specs/Came`.
#![tactic(auto)]

pub mod laws;
