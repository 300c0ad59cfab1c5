//! The steps by which a seat takes slots out of the table and gives them back.
ghost use Rattle.std.specs.Prelude.{◌≡◌, ℕ, ◌+◌, ◌-◌, ◌^◌, ◌<◌, ◌≤◌, [], ◌∷◌, ◌++◌, length, true, is_ok, if◌then◌else◌, Some, None};
ghost use Rattle.bc_parts.specs.Machine.{state_after};
ghost use Rattle.bc_parts.specs.Seat.{Holds};
ghost use Rattle.bc_parts.specs.Steps.{Rests, Takes, Carries, HoldsBook, IsAway, LaterOf, Bears};
ghost use Rattle.bc_parts.specs.Steps.{taking, giving, committing};

use crate::machine::Machine;
use crate::rules::{Claim, Clear, Commit};
use crate::slots::{book_at, put_in, reserve_in};
use crate::table::{CLAIMS, COUNT, Cargo, Place, Steps};
use crossbeam_utils::Backoff;
use std::alloc::AllocError;
use std::sync::Wait;

// Waits until nobody has the slot, and takes it.
pub fn claim<M: Machine, R: Wait>(rt: &R, table: &Steps<M>, place: &mut Place<M>, slot: usize)
    requires table { place.old.table_id ≡ table.now.table_id }
    requires words { table.now.table_id.words ≡ length table.now.key.parts.value.items + 3 }
    requires slot { slot ≤ length table.now.key.parts.value.items }
    requires rests { Rests M.Machine place.old.me }
    ensures table { (place.new.table_id ≡ place.old.table_id) × (place.new.id ≡ place.old.id) }
    ensures takes { Takes M.Machine slot place.old.me place.new.me }
{
    let backoff = Backoff::new();
    for _ in rt.forever() {
        if table.compare_exchange::<Claim<M>>(place, slot + CLAIMS, 0, 1) == 0 {
            return;
        }
        backoff.snooze();
    }
    unreachable!()
}

// Empties the slot in hand.
pub fn lift<M: Machine>(
    table: &Steps<M>,
    place: &mut Place<M>,
    slot: usize,
) -> Cargo<M::Part, M::Book>
    requires table { place.old.table_id ≡ table.now.table_id }
    requires full { (c : _) × (place.old.me.1 ≡ (slot, Some c) ∷ []) }
    ensures table { (place.new.table_id ≡ place.old.table_id) × (place.new.id ≡ place.old.id) }
    ensures cargo { place.old.me.1 ≡ (slot, Some result) ∷ [] }
    ensures emptied { place.new.me ≡ (place.old.me.0, (slot, None) ∷ []) }
{
    let Some(cargo) = table.exchange(place, slot, None) else {
        unreachable!()
    };
    cargo
}

// Fills the empty slot in hand.
pub fn fill<M: Machine>(
    table: &Steps<M>,
    place: &mut Place<M>,
    slot: usize,
    cargo: Cargo<M::Part, M::Book>,
)
    requires table { place.old.table_id ≡ table.now.table_id }
    requires empty { place.old.me.1 ≡ (slot, None) ∷ [] }
    ensures table { (place.new.table_id ≡ place.old.table_id) × (place.new.id ≡ place.old.id) }
    ensures filled { place.new.me ≡ (place.old.me.0, (slot, Some cargo) ∷ []) }
{
    let found = table.exchange(place, slot, Some(cargo));
    let None = found else { unreachable!() };
}

// Gives the filled slot back, which anyone may take then.
pub fn clear<M: Machine>(table: &Steps<M>, place: &mut Place<M>, slot: usize)
    requires table { place.old.table_id ≡ table.now.table_id }
    requires words { table.now.table_id.words ≡ length table.now.key.parts.value.items + 3 }
    requires slot { slot ≤ length table.now.key.parts.value.items }
    requires filled { let v = place.old.me.0 in
        (c : _) × Carries M.Machine slot place.old.me c
        × Bears M.Machine v.start v.seen v.owed slot c }
    ensures table { (place.new.table_id ≡ place.old.table_id) × (place.new.id ≡ place.old.id) }
    ensures given { place.new.me ≡ (giving place.old.me.0 slot, []) }
{
    table.store::<Clear<M>>(place, slot + CLAIMS, 0);
}

// Waits until nobody has the Book, and takes its slot. The Book stays there: it is too large to be
// moved out and back for each event.
pub fn take_book<M: Machine, R: Wait>(rt: &R, table: &Steps<M>, place: &mut Place<M>, slot: usize)
    requires table { place.old.table_id ≡ table.now.table_id }
    requires words { table.now.table_id.words ≡ length table.now.key.parts.value.items + 3 }
    requires slot { slot ≡ length table.now.key.parts.value.items }
    requires rests { Rests M.Machine place.old.me }
    requires begun { place.old.me.0.start ≡ table.now.key.parts.value.items }
    ensures table { (place.new.table_id ≡ place.old.table_id) × (place.new.id ≡ place.old.id) }
    ensures view { let v = place.new.me.0 in v ≡ taking place.old.me.0 slot v.seen v.owed }
    ensures book { let v = place.new.me.0 in HoldsBook M.Machine slot v.seen v.owed place.new.me }
    ensures later { LaterOf M.Machine place.old.me.0 place.new.me.0.seen }
    ensures promises { place.old.me.0.promises ≤ place.new.me.0.owed }
{
    claim(rt, table, place, slot);
}

// Makes room in the Book in hand for so many events more.
pub fn reserve<M: Machine>(
    table: &Steps<M>,
    place: &mut Place<M>,
    slot: usize,
    events: u32,
) -> Result<(), AllocError>
    requires table { place.old.table_id ≡ table.now.table_id }
    requires book { let v = place.old.me.0 in HoldsBook M.Machine slot v.seen v.owed place.old.me }
    ensures table { (place.new.table_id ≡ place.old.table_id) × (place.new.id ≡ place.old.id) }
    ensures view { place.new.me.0 ≡ place.old.me.0 }
    ensures book { let v = place.old.me.0 in HoldsBook M.Machine slot v.seen
        (v.owed + (if is_ok result then events else 0)) place.new.me }
{
    reserve_in::<M>(place.slot_mut(table, slot), events)
}

// Whether the Book in hand admits the event.
pub fn admits<M: Machine>(
    table: &Steps<M>,
    place: &mut Place<M>,
    slot: usize,
    event: &M::Event,
) -> Result<(), M::Stop>
    requires table { place.old.table_id ≡ table.now.table_id }
    requires book { let v = place.old.me.0 in HoldsBook M.Machine slot v.seen v.owed place.old.me }
    ensures table { (place.new.table_id ≡ place.old.table_id) × (place.new.id ≡ place.old.id) }
    ensures same { place.new.me ≡ place.old.me }
    ensures verdict { result ≡ M.verdict place.old.me.0.seen event.now }
{
    M::admits(book_at::<M>(place.slot_mut(table, slot)), event)
}

// Puts the event into the Book in hand. Answers the stop that the events have made then.
fn put_event<M: Machine>(
    table: &Steps<M>,
    place: &mut Place<M>,
    slot: usize,
    event: M::Event,
) -> Option<M::Stop>
    requires table { place.old.table_id ≡ table.now.table_id }
    requires book { let v = place.old.me.0 in HoldsBook M.Machine slot v.seen v.owed place.old.me }
    requires promise { 0 < place.old.me.0.owed }
    ensures table { (place.new.table_id ≡ place.old.table_id) × (place.new.id ≡ place.old.id) }
    ensures view { place.new.me.0 ≡ place.old.me.0 }
    ensures book { let v = place.old.me.0 in HoldsBook M.Machine slot (v.seen ++ event ∷ [])
        (v.owed - 1) place.new.me }
    ensures few { length (place.old.me.0.seen ++ event ∷ []) < 2 ^ 64 }
    ensures stop { result ≡ M.stop (place.old.me.0.seen ++ event ∷ []) }
{
    put_in::<M>(place.slot_mut(table, slot), event)
}

// Gives the Book back, with the list of which the seat knows.
pub fn put_back<M: Machine>(table: &Steps<M>, place: &mut Place<M>, slot: usize)
    requires table { place.old.table_id ≡ table.now.table_id }
    requires words { table.now.table_id.words ≡ length table.now.key.parts.value.items + 3 }
    requires slot { slot ≡ length table.now.key.parts.value.items }
    requires begun { place.old.me.0.start ≡ table.now.key.parts.value.items }
    requires away { IsAway M.Machine slot place.old.me.0 }
    requires book { let v = place.old.me.0 in HoldsBook M.Machine slot v.seen v.owed place.old.me }
    ensures table { (place.new.table_id ≡ place.old.table_id) × (place.new.id ≡ place.old.id) }
    ensures given { place.new.me ≡ (giving place.old.me.0 slot, []) }
{
    clear(table, place, slot);
}

// Puts the event into the Book in hand, counts it, and gives the Book back. Answers the stop that the
// events have made then.
pub fn add<M: Machine>(
    table: &Steps<M>,
    place: &mut Place<M>,
    slot: usize,
    event: M::Event,
) -> Option<M::Stop>
    requires table { place.old.table_id ≡ table.now.table_id }
    requires words { table.now.table_id.words ≡ length table.now.key.parts.value.items + 3 }
    requires slot { slot ≡ length table.now.key.parts.value.items }
    requires begun { place.old.me.0.start ≡ table.now.key.parts.value.items }
    requires away { IsAway M.Machine slot place.old.me.0 }
    requires book { let v = place.old.me.0 in HoldsBook M.Machine slot v.seen v.owed place.old.me }
    requires promise { (0 < place.old.me.0.promises)
        × (place.old.me.0.promises ≤ place.old.me.0.owed) }
    requires number { M.number event ≡ place.old.me.0.first }
    requires holds { (k : ℕ) → M.changes (length place.old.me.0.start) event k ≡ true → Holds place.old.me.0.held k }
    requires enabled { let v = place.old.me.0 in
        M.enabled (state_after M.Machine v.start v.seen) event }
    ensures table { (place.new.table_id ≡ place.old.table_id) × (place.new.id ≡ place.old.id) }
    ensures given { let v = place.old.me.0 in
        place.new.me ≡ (giving (committing v (v.seen ++ event ∷ [])) slot, []) }
    ensures stop { result ≡ M.stop (place.old.me.0.seen ++ event ∷ []) }
{
    let stop = put_event(table, place, slot, event);
    table.fetch_add::<Commit<M>>(place, COUNT, 1);
    put_back(table, place, slot);
    stop
}
