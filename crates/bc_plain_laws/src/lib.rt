//! What holds of every run over the backing device alone: from what such a run did to what it
//! promises. It has definitions and laws, and nothing that runs.
//!
//! A run ends with a device and a list of entries: what it did, and what it answered. Its caller
//! wants to know something else: whether each answer was right, and what a crash would leave of the
//! device now. The laws of the events (`bc_events`) say that of a state that no program has, with a
//! history by seats, and in sectors of the data. So whoever calls the run would have to go from its
//! device to that state, from the state to the events, from seats to workers, and from sectors of
//! the data to those of the device, each time that it states a promise. That is done here, once:
//! the laws begin with what the end of a run says, and end with its entries and its device.
//!
//! They rest on two premises. The device told what it held as the run began: of one that doesn't,
//! the machine says nothing, and any event may follow any other. And for what is stable the last
//! event was a good barrier, and nothing halted the run before: without the barrier a crash may
//! undo the last write.
//!
//! Read `specs/` in this order: Promises, Laws, Example.
#![tactic(auto)]

pub mod laws;

// Passed on, so that a crate above need not list these.
pub use bc_hand;
pub use bc_hand::bc_machine;
