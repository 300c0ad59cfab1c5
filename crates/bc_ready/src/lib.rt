//! Buckets that are ready to be taken again, by a deed of a seat.
//!
//! A raised bucket may be filled anew once its new generation is durable: it stands in a chain of
//! priority sets that a durable entry names. Then the bucket goes to a list, from which it is
//! taken. The chain before that one isn't needed any more, since no crash finds it: its buckets are
//! ready at once, without a raise, for the next chain. So as many buckets as a chain has are always
//! on the list for priority sets, or held from it, and a next chain can be written.
//!
//! Which buckets go to which list, and that the core allows it, `bc_renew` says. Read
//! `specs/Ready.antt`, then `plan`, `go` and `ready`.
#![tactic(auto)]

mod go;
pub mod plan;
pub mod ready;

// Passed on, so that a crate above need not list these.
pub use bc_raise;
pub use bc_raise::{bc_deed, bc_hand, bc_machine, bc_place, bc_renew};
