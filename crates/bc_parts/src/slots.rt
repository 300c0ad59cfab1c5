//! The way of the parts from their vector into slots, and back.
ghost use Rattle.std.specs.Prelude.{◌≡◌, ℕ, ◌+◌, ◌-◌, ◌^◌, ◌<◌, ◌≤◌, List, [], ◌∷◌, ◌++◌, length, replicate};
ghost use Rattle.std.specs.Prelude.{vec_capacity, Some, IfOk, IfErr, is_ok, if◌then◌else◌};
ghost use Rattle.bc_parts.specs.declared.table.Cargo.TheVariants.{Part, Book, Vector};
ghost use Rattle.bc_parts.specs.Rule.{laid};
ghost use Rattle.bc_parts.specs.Steps.{HasBook, HasPut};

use crate::machine::Machine;
use crate::not_made::NotMade;
use crate::table::{Cargo, Slot};
use std::alloc::{AllocError, Global};

// The words of a table that begins.
pub fn zeros(alloc: Global, count: usize) -> Result<Vec<u64>, AllocError>
    ensures { IfOk result (λ v. v.items ≡ replicate count 0) }
{
    vec![in alloc; 0; count]
}

// Moves the parts and the Book into slots, with the emptied vector behind them.
pub fn lay<M: Machine>(
    alloc: Global,
    mut parts: Vec<M::Part>,
    book: M::Book,
) -> Result<Vec<Slot<M>>, NotMade<M>>
    requires { length parts.items < 2 ^ 32 }
    ensures ok { IfOk result (λ slots. (v : _) × (slots.items ≡ laid parts.items book v)
        × (v.items ≡ []) × (length parts.items ≤ vec_capacity v)) }
    ensures err { IfErr result (λ n. (n.parts.items ≡ parts.items) × (n.book ≡ book)) }
{
    let Ok(mut slots) = Vec::with_capacity(alloc, parts.len() + 2) else {
        return Err(NotMade { parts, book });
    };
    parts.reverse();
    while let Some(part) = parts.pop() {
        slots.push_reserved(Some(Cargo::Part(part)));
    }
    slots.push_reserved(Some(Cargo::Book(book)));
    slots.push_reserved(Some(Cargo::Vector(parts)));
    Ok(slots)
}

// The part in such a slot.
pub fn part_in<M: Machine>(slot: Slot<M>) -> M::Part
    requires { (p : M.Part) × (slot ≡ Some (Part p)) }
    ensures { slot ≡ Some (Part result) }
{
    let Some(Cargo::Part(part)) = slot else {
        unreachable!()
    };
    part
}

// The Book in such a slot.
pub fn book_in<M: Machine>(slot: Slot<M>) -> M::Book
    requires { (b : M.Book) × (slot ≡ Some (Book b)) }
    ensures { slot ≡ Some (Book result) }
{
    let Some(Cargo::Book(book)) = slot else {
        unreachable!()
    };
    book
}

// The same, left where it is.
pub fn book_at<M: Machine>(slot: &Slot<M>) -> &M::Book
    requires { (b : M.Book) × (slot.now ≡ Some (Book b)) }
    ensures { slot.now ≡ Some (Book result.now) }
{
    let Some(Cargo::Book(book)) = slot else {
        unreachable!()
    };
    book
}

// Makes room in the Book for so many events more.
fn reserve_for<M: Machine>(
    cargo: &mut Cargo<M::Part, M::Book>,
    events: u32,
) -> Result<(), AllocError>
    requires { (b : M.Book) × (cargo.old ≡ Book b) }
    ensures { (es : List M.Event) (more : ℕ) → HasBook M.Machine es more (Some cargo.old)
        → HasBook M.Machine es (more + (if is_ok result then events else 0)) (Some cargo.new) }
{
    let Cargo::Book(book) = cargo else {
        unreachable!()
    };
    M::reserve(book, events as usize)
}

// The same, of the Book in such a slot. Each of the two opens one enum, since of a value changed under
// a pattern of both the check does not know what was put back.
pub fn reserve_in<M: Machine>(slot: &mut Slot<M>, events: u32) -> Result<(), AllocError>
    requires { (b : M.Book) × (slot.old ≡ Some (Book b)) }
    ensures { (es : List M.Event) (more : ℕ) → HasBook M.Machine es more slot.old
        → HasBook M.Machine es (more + (if is_ok result then events else 0)) slot.new }
{
    let Some(cargo) = slot else { unreachable!() };
    reserve_for::<M>(cargo, events)
}

// Puts the event into the Book, which has room for it. Answers the stop that the events have made then.
fn put_event<M: Machine>(cargo: &mut Cargo<M::Part, M::Book>, event: M::Event) -> Option<M::Stop>
    requires { (es : List M.Event) × HasBook M.Machine es 1 (Some cargo.old) }
    ensures { (es : List M.Event) (more : ℕ) → HasBook M.Machine es more (Some cargo.old)
        → HasPut M.Machine (es ++ event ∷ []) (more - 1) (Some cargo.new) result }
{
    let Cargo::Book(book) = cargo else {
        unreachable!()
    };
    M::put_event(book, event);
    M::stopped(book)
}

// The same, of the Book in such a slot. Each of the two opens one enum, since of a value changed under
// a pattern of both the check does not know what was put back.
pub fn put_in<M: Machine>(slot: &mut Slot<M>, event: M::Event) -> Option<M::Stop>
    requires { (es : List M.Event) × HasBook M.Machine es 1 slot.old }
    ensures { (es : List M.Event) (more : ℕ) → HasBook M.Machine es more slot.old
        → HasPut M.Machine (es ++ event ∷ []) (more - 1) slot.new result }
{
    let Some(cargo) = slot else { unreachable!() };
    put_event::<M>(cargo, event)
}

// The vector in such a slot.
pub fn vector_in<M: Machine>(slot: Slot<M>) -> Vec<M::Part>
    requires { (v : _) × (slot ≡ Some (Vector v)) }
    ensures { slot ≡ Some (Vector result) }
{
    let Some(Cargo::Vector(vector)) = slot else {
        unreachable!()
    };
    vector
}

// Moves the parts and the Book back out of such slots. It takes no memory.
pub fn unlay<M: Machine>(mut slots: Vec<Slot<M>>) -> NotMade<M>
    requires { (ps : List M.Part) × (b : M.Book) × (v : _) × (slots.items ≡ laid ps b v)
        × (v.items ≡ []) × (length ps ≤ vec_capacity v) }
    ensures { (v : _) × (slots.items ≡ laid result.parts.items result.book v) }
{
    let mut parts = vector_in::<M>(slots.pop().unwrap());
    let book = book_in::<M>(slots.pop().unwrap());
    while let Some(slot) = slots.pop() {
        parts.push_reserved(part_in::<M>(slot));
    }
    parts.reverse();
    slots.destroy_empty();
    NotMade { parts, book }
}
