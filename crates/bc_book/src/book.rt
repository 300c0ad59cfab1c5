//! The book of a run: the list of its events.
ghost use Rattle.std.specs.Prelude.{◌≡◌, ℕ, ◌+◌, ◌<◌, ◌≤◌, ◌++◌, ◌∷◌, [], length, vec_capacity};
ghost use Rattle.std.specs.Prelude.{MatchResult, OnOk, Some};
ghost use Rattle.bc_events.specs.Columns.{entry_by, halt_of, entries_of, verdict_of};
ghost use Rattle.bc_events.specs.declared.event.Event.{Event};
ghost use Rattle.bc_events.specs.declared.event.Deed.TheVariants as deed;
ghost use Rattle.bc_book.specs.Pass.{kept_of, events_in, event_by, deed_of_entry};
ghost use Rattle.bc_book.specs.Filed.{EndAt, IsFiled, HasFiled, alone, kept_after, with_aside, HasRoom};
ghost use Rattle.bc_book.specs.declared.filed.Places.{Places};
ghost use Rattle.bc_book.specs.declared.filed.Filed.{Filed};

use crate::filed::{Aside, Filed, Places, filed_event};
use crate::halt::{halted_after, outlasts_halt};
use crate::pass::{Pass, Record};
use bc_disk::disk::Device;
use bc_events::event::{Deed, Event};
use bc_model::history::Entry;
use bc_model::values::Values;
use std::alloc::{AllocError, Global};
use std::marker::Model;

/// The list of all events of a run, with room for so many more.
#[derive(Drop)]
pub struct Book {
    pass: Pass,
    room: usize,
    halted: Option<Device>,
}

impl Model for Book {
    ghost use Rattle.std.specs.Prelude.{◌≡◌};
    ghost use Rattle.bc_events.specs.Columns.{halt_of};
    ghost use Rattle.bc_book.specs.Book.{BookView};
    ghost use Rattle.bc_book.specs.Pass.{events_in};
    ghost use Rattle.bc_book.specs.Filed.{IsKept, HasRoom};

    ghost Value = { BookView };

    ghost view = { λ b. record { events = events_in b.pass; room = b.room } };

    ghost invariant = { λ b. IsKept b.pass × HasRoom b.pass b.room
        × (b.halted ≡ halt_of (events_in b.pass)) };
}

// The next places of its lists.
fn places_of(pass: &Pass) -> Places
    ensures { EndAt (kept_of pass.now) result }
{
    Places {
        entries: pass.entries.as_slice().len(),
        beside: pass.beside.as_slice().len(),
        readings: pass.readings.as_slice().len(),
        insertions: pass.insertions.as_slice().len(),
        others: pass.others.as_slice().len(),
    }
}

// Puts the item behind the others.
fn put<T: Drop>(list: &mut Vec<T>, item: T)
    requires { length list.old.items < vec_capacity list.old }
    ensures items { list.new.items ≡ list.old.items ++ item ∷ [] }
    ensures capacity { vec_capacity list.old ≤ vec_capacity list.new }
{
    let Ok(()) = list.push(item) else {
        unreachable!()
    };
}

// Puts what goes into a list that is neither the history nor that of the records.
fn put_aside(pass: &mut Pass, aside: Aside)
    requires { HasRoom pass.old 1 }
    ensures kept { kept_of pass.new ≡ with_aside (kept_of pass.old) aside }
    ensures entries { pass.new.entries ≡ pass.old.entries }
    ensures records { pass.new.records ≡ pass.old.records }
    ensures room { (n : ℕ) → HasRoom pass.old (n + 1) → HasRoom pass.new n }
{
    match aside {
        Aside::Nothing => {}
        Aside::Values(values) => put(&mut pass.beside, values),
        Aside::Reading(reading) => put(&mut pass.readings, reading),
        Aside::Insertion(insertion) => put(&mut pass.insertions, insertion),
        Aside::Deed(deed) => put(&mut pass.others, deed),
    }
}

// Puts what an event was taken apart into.
fn put_filed(pass: &mut Pass, filed: Filed)
    requires { HasRoom pass.old 1 }
    ensures kept { kept_of pass.new ≡ kept_after (kept_of pass.old) filed }
    ensures records { pass.new.records.items ≡ pass.old.records.items ++ filed.record ∷ [] }
    ensures room { (n : ℕ) → HasRoom pass.old (n + 1) → HasRoom pass.new n }
{
    let Filed {
        record,
        entry,
        aside,
    } = filed;
    put_aside(pass, aside);
    put(&mut pass.records, record);
    match entry {
        Some(entry) => put(&mut pass.entries, entry),
        None => {}
    }
}

// Puts a record that tells its event alone.
fn put_alone(pass: &mut Pass, item: Record)
    requires { HasRoom pass.old 1 }
    ensures filed { (e : Event) → ((p : Places) → IsFiled p (alone item) e)
        → HasFiled pass.old pass.new e }
    ensures room { (n : ℕ) → HasRoom pass.old (n + 1) → HasRoom pass.new n }
{
    put(&mut pass.records, item);
}

// Puts an entry, with a record that tells its event by it.
fn put_entry(pass: &mut Pass, seat: u32, entry: Entry)
    requires room { HasRoom pass.old 1 }
    requires entry { entry_by (deed_of_entry entry) ≡ Some entry }
    ensures filed { HasFiled pass.old pass.new (event_by seat (deed_of_entry entry)) }
    ensures room { (n : ℕ) → HasRoom pass.old (n + 1) → HasRoom pass.new n }
{
    let place = pass.entries.as_slice().len();
    put(&mut pass.entries, entry);
    put(&mut pass.records, Record::Entry { seat, entry: place });
}

// Puts a read of the backing device, with the values that it found.
fn put_read(pass: &mut Pass, seat: u32, first: u64, values: Values)
    requires { HasRoom pass.old 1 }
    ensures filed { HasFiled pass.old pass.new (event_by seat (deed.BackingRead first values)) }
    ensures room { (n : ℕ) → HasRoom pass.old (n + 1) → HasRoom pass.new n }
{
    let place = pass.beside.as_slice().len();
    put(&mut pass.beside, values);
    let record = Record::BackingRead {
        seat,
        first,
        values: place,
    };
    put(&mut pass.records, record);
}

// Puts what an event is taken apart into, whatever it is. It is kept out of line, so that the deeds of
// which most events are don't pay for the largest.
#[inline(never)]
fn put_any(pass: &mut Pass, event: Event)
    requires { HasRoom pass.old 1 }
    ensures filed { HasFiled pass.old pass.new event }
    ensures room { (n : ℕ) → HasRoom pass.old (n + 1) → HasRoom pass.new n }
{
    let places = places_of(pass);
    put_filed(pass, filed_event(event, places));
}

// Puts an event. The deeds of which most events are go straight to their lists: to take any event
// apart takes much longer.
fn put_apart(pass: &mut Pass, event: Event)
    requires { HasRoom pass.old 1 }
    ensures filed { HasFiled pass.old pass.new event }
    ensures room { (n : ℕ) → HasRoom pass.old (n + 1) → HasRoom pass.new n }
{
    let Event { seat, deed } = event;
    match deed {
        Deed::Claim {
            first,
            count,
            share,
        } => put_alone(
            pass,
            Record::Claim {
                seat,
                first,
                count,
                share,
            },
        ),
        Deed::Release => put_alone(pass, Record::Release { seat }),
        Deed::LineFrom { of } => put_alone(pass, Record::LineFrom { seat, of }),
        Deed::LineDone { of } => put_alone(pass, Record::LineDone { seat, of }),
        Deed::BackingRead { first, values } => put_read(pass, seat, first, values),
        Deed::BackingWrite {
            first,
            of: Some(of),
            values,
        } => put_entry(
            pass,
            seat,
            Entry::Write {
                worker: of.worker,
                line: of.line,
                first,
                values,
            },
        ),
        Deed::Answer { of, first, values } => put_entry(
            pass,
            seat,
            Entry::Read {
                worker: of.worker,
                line: of.line,
                first,
                values,
            },
        ),
        deed => put_any(pass, Event { seat, deed }),
    }
}

// Makes room for so many events more.
fn make_room(pass: &mut Pass, room: usize) -> Result<(), AllocError>
    ensures kept { kept_of pass.new ≡ kept_of pass.old }
    ensures records { pass.new.records.items ≡ pass.old.records.items }
    ensures before { (n : ℕ) → HasRoom pass.old n → HasRoom pass.new n }
    ensures room { OnOk result (HasRoom pass.new room) }
{
    pass.entries.reserve(room)?;
    pass.records.reserve(room)?;
    pass.beside.reserve(room)?;
    pass.readings.reserve(room)?;
    pass.insertions.reserve(room)?;
    pass.others.reserve(room)?;
    Ok(())
}

impl Book {
    /// A book without events and without room.
    pub fn new(alloc: Global) -> Book
        ensures { (result.events ≡ []) × (result.room ≡ 0) }
    {
        let pass = Pass {
            entries: Vec::new(alloc),
            records: Vec::new(alloc),
            beside: Vec::new(alloc),
            readings: Vec::new(alloc),
            insertions: Vec::new(alloc),
            others: Vec::new(alloc),
        };
        Book {
            pass,
            room: 0,
            halted: None,
        }
    }

    /// The number of events.
    pub fn count(&self) -> u64
        ensures { result ≡ length self.now.events }
    {
        self.pass.records.as_slice().len() as u64
    }

    /// The device that halted the run: that of the first write or barrier that failed.
    pub fn halted(&self) -> Option<Device>
        ensures { result ≡ halt_of self.now.events }
    {
        self.halted
    }

    /// Puts the event behind the others. Takes no memory.
    pub fn put_event(&mut self, event: Event)
        requires { 0 < self.old.room }
        ensures events { self.new.events ≡ self.old.events ++ event ∷ [] }
        ensures room { self.new.room + 1 ≡ self.old.room }
    {
        let halted = halted_after(self.halted, &event);
        put_apart(&mut self.pass, event);
        self.room -= 1;
        self.halted = halted;
    }

    /// Makes room for so many events beyond those for which there is room. `Err` comes from want of
    /// memory, or of numbers for it, and leaves the events as they are and as much room as before.
    pub fn reserve(&mut self, more: usize) -> Result<(), AllocError>
        ensures events { self.new.events ≡ self.old.events }
        ensures room { MatchResult result (λ _. self.new.room ≡ self.old.room + more)
            (λ _. self.new.room ≡ self.old.room) }
    {
        let room = self.room.checked_add(more).ok_or(AllocError)?;
        make_room(&mut self.pass, room)?;
        self.room = room;
        Ok(())
    }

    /// Whether the event may stand behind the others: after a halt only one that outlasts it does. `Err`
    /// names the device that halted the run.
    pub fn admits(&self, event: &Event) -> Result<(), Device>
        ensures { result ≡ verdict_of self.now.events event.now }
    {
        match self.halted {
            Some(device) if !outlasts_halt(&event.deed) => Err(device),
            _ => Ok(()),
        }
    }

    /// What the run did.
    pub fn into_pass(self) -> Pass
        ensures events { events_in result ≡ self.events }
        ensures entries { result.entries.items ≡ entries_of self.events }
    {
        self.pass
    }
}
