//! The table that the seats of a run share: what lies in its slots, and what a seat knows of it.
//!
//! Word 0 counts the events. Word 1 is read by nobody: a seat stores a number there that its proof
//! has to see in a step. Word k + 2 is 1 while a seat has the slot k, and else 0. Slot k is for
//! the part k, the next one for the Book, and the last one for the vector in which the parts came
//! and in which they leave.
use crate::machine::Machine;
use crate::rules::Rules;
use atomic_table::{Seat, Shared, Table};
use std::alloc::Global;
use std::collections::LinkedList;
use std::snapshot::Snapshot;

/// The word that counts the events.
pub const COUNT: usize = 0;

/// The word in which seats note numbers.
pub const NOTE: usize = 1;

/// The word of the slot 0.
pub const CLAIMS: usize = 2;

/// What lies in a slot.
pub enum Cargo<P, B> {
    Part(P),
    Book(B),
    /// Empty, with room for all parts.
    Vector(Vec<P>),
}

/// What a seat knows. No value of it is made.
pub struct Knowledge<P, E> {
    /// The parts as the run began.
    pub start: LinkedList<P>,
    /// The seat has the numbers from `first` up to `end`.
    pub first: u64,
    /// Below `end` where a seat was joined that had the numbers from it on, and had seen `beside`.
    pub middle: u64,
    pub end: u64,
    pub seen: LinkedList<E>,
    pub beside: LinkedList<E>,
    /// A seat that is to be split keeps the numbers below it.
    pub cut: u64,
    /// The slots in hand.
    pub held: LinkedList<u64>,
    /// The slot in hand that is not at home.
    pub out: Option<u64>,
    /// For how many events the Book has room on behalf of this seat.
    pub promises: u64,
    /// The same of all seats, known while the Book is in hand.
    pub owed: u64,
}

/// What is told to a table once, as a run begins. It has no parts, but remembers them for proofs.
pub struct Start<P> {
    pub seats: u64,
    pub parts: Snapshot<Vec<P>>,
}

impl<P> Drop for Start<P> {
    fn drop(self) {
        let Start { seats: _, parts: _ } = self;
    }
}

pub type Slot<M> = Option<Cargo<<M as Machine>::Part, <M as Machine>::Book>>;

pub type View<M> = Knowledge<<M as Machine>::Part, <M as Machine>::Event>;

pub type Board<M> = Table<Slot<M>, View<M>, Start<<M as Machine>::Part>, Rules<M>, Global>;

pub type Steps<M> = Shared<Slot<M>, View<M>, Start<<M as Machine>::Part>, Rules<M>>;

pub type Place<M> = Seat<Slot<M>, View<M>>;
