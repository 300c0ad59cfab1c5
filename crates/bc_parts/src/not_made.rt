//! What a run that could not begin gives back.
use crate::machine::Machine;

/// There was no memory to begin a run. Its parts and its Book come back.
pub struct NotMade<M: Machine> {
    pub parts: Vec<M::Part>,
    pub book: M::Book,
}
