//! The parts of a run, and what seats do with them.
ghost use Rattle.std.specs.Prelude.{◌≡◌, ℕ, ◌+◌, ◌-◌, ◌^◌, ◌<◌, ◌≤◌, List, [], ◌∷◌, ◌++◌, length};
ghost use Rattle.std.specs.Prelude.{true, if◌then◌else◌, Some, Ok, Err, is_ok, IfOk, IfErr, OnOk};
ghost use Rattle.std.specs.Option.{option_or};
ghost use Rattle.bc_parts.specs.Machine.{state_after, IsRun, StandFrom};
ghost use Rattle.bc_parts.specs.Seat.{newcomer, Holds, without};
ghost use Rattle.bc_parts.specs.Later.{SeesLater, AtCommit, AddsOwn};

use crate::machine::Machine;
use crate::not_made::NotMade;
use crate::rules::{Fetch, Halves, Lay, Look, Mark, Promise};
use crate::seat::Seat;
use crate::slots::{book_in, lay, part_in, unlay, vector_in, zeros};
use crate::steps::{add, admits, claim, clear, fill, lift, put_back, reserve, take_book};
use crate::table::{Board, CLAIMS, COUNT, Cargo, NOTE, Start};
use atomic_table::{Refused, Table};
use std::alloc::{AllocError, Global};
use std::marker::Model;
use std::snapshot::Snapshot;
use std::sync::Wait;

/// The parts of a run, the Book among them, which any number of threads share by reference.
pub struct Parts<M: Machine> {
    table: Board<M>,
    count: usize,
}

impl<M: Machine> Model for Parts<M> {
    ghost use Rattle.std.specs.Prelude.{◌≡◌, ◌+◌, ◌<◌, length};
    ghost use Rattle.bc_parts.specs.Seat.{PartsView, coded_parts};

    ghost Value = { PartsView M.Part };

    ghost coded = { coded_parts M.Part.code };

    ghost view = { λ p. record {
      run = record {
        table = p.table.shared.table_id;
        start = p.table.shared.key.parts.value.items;
      };
      seats = p.table.shared.key.seats;
    } };

    ghost invariant = { λ p. (p.count ≡ length p.table.shared.key.parts.value.items)
        × (p.table.shared.table_id.words ≡ p.count + 3)
        × (p.table.shared.table_id.slots ≡ p.count + 2)
        × (p.count < 4294967296) };
}

impl<M: Machine> Parts<M> {
    /// Begins a run with these parts, which stand for its opening state, and a Book without events.
    /// The seat has all numbers from 0 up to `seats`.
    ///
    /// `Err` comes from want of memory alone, and hands the parts and the Book back as they were.
    pub fn new(
        alloc: Global,
        parts: Vec<M::Part>,
        book: M::Book,
        seats: u32,
    ) -> Result<(Parts<M>, Seat<M>), NotMade<M>>
        requires seats { 0 < seats }
        requires few { length parts.items < 2 ^ 32 }
        requires stand { StandFrom M.Machine (M.opening parts.items) 0 parts.items }
        requires empty { M.events book ≡ [] }
        ensures ok { IfOk result
            (λ r. (r.0.run.start ≡ parts.items) × (r.0.seats ≡ seats) × (r.1 ≡ newcomer r.0)) }
        ensures err { IfErr result (λ n. (n.parts.items ≡ parts.items) × (n.book ≡ book)) }
    {
        let count = parts.len();
        let start = Start {
            seats: u64::from(seats),
            parts: Snapshot::of(&parts),
        };
        let Ok(words) = zeros(alloc, count + 3) else {
            return Err(NotMade { parts, book });
        };
        let slots = match lay::<M>(alloc, parts, book) {
            Ok(slots) => slots,
            Err(not_made) => return Err(not_made),
        };
        match Table::new(alloc, words.as_slice(), slots, &start) {
            Ok((table, place)) => {
                let seat = Seat {
                    place,
                    first: 0,
                    heard: None,
                };
                Ok((Parts { table, count }, seat))
            }
            Err(Refused { slots }) => Err(unlay::<M>(slots)),
        }
    }

    /// How many parts there are, the Book not counted.
    pub fn part_count(&self) -> usize
        ensures { result ≡ length self.now.run.start }
    {
        self.count
    }

    /// Cuts the seat's numbers in two. It keeps those below `at`, with the parts that it holds and
    /// its promises, and the new seat has the others. Both have seen the same list, and were told
    /// of the same stop.
    pub fn split(&self, seat: &mut Seat<M>, at: u32) -> Seat<M>
        requires run { seat.old.run ≡ self.now.run }
        requires at { (seat.old.first < at) × (at < seat.old.end) }
        ensures kept { seat.new ≡ record seat.old { end = at } }
        ensures new { result ≡ record seat.old { first = at; parts = []; promises = 0 } }
    {
        let table = &self.table.shared;
        // Nobody reads this word: a step shows its operands to the rule of the table, and a split
        // doesn't, so the number is stored first.
        table.store::<Mark<M>>(&mut seat.place, NOTE, u64::from(at));
        let place = table.split_seat::<Halves<M>>(&mut seat.place);
        let heard = seat.heard;
        Seat {
            place,
            first: at,
            heard,
        }
    }

    /// Takes in another seat, whose numbers are the next ones and which holds no part, with its
    /// promises. The list that is then seen goes on from what either had seen.
    pub fn join(&self, seat: &mut Seat<M>, other: Seat<M>)
        requires run { (seat.old.run ≡ self.now.run) × (other.run ≡ self.now.run) }
        requires next { other.first ≡ seat.old.end }
        requires idle { other.parts ≡ [] }
        ensures seat { seat.new ≡ record seat.old {
          end = other.end;
          seen = seat.new.seen;
          promises = seat.old.promises + other.promises;
          heard = option_or seat.old.heard other.heard;
        } }
        ensures later { SeesLater M.Machine seat.old seat.new.seen }
        ensures other { SeesLater M.Machine other seat.new.seen }
    {
        let Seat {
            place,
            first: _,
            heard,
        } = other;
        let table = &self.table.shared;
        table.join_seat::<Halves<M>>(&mut seat.place, place);
        // What is loaded is the seat's to know, not the code's: it has seen all events now.
        table.load::<Look<M>>(&mut seat.place, COUNT);
        seat.heard = seat.heard.or(heard);
    }

    /// Waits until no seat holds the part, and takes it. Its value stands for the state that the
    /// seat has then seen.
    pub fn take<R: Wait>(&self, rt: &R, seat: &mut Seat<M>, part: u32) -> M::Part
        requires run { seat.old.run ≡ self.now.run }
        requires part { part < length self.now.run.start }
        requires free { Holds seat.old.parts part → ⊥ }
        ensures seat { seat.new
            ≡ record seat.old { seen = seat.new.seen; parts = part ∷ seat.old.parts } }
        ensures later { SeesLater M.Machine seat.old seat.new.seen }
        ensures value { M.stands part result
            (state_after M.Machine seat.new.run.start seat.new.seen) }
    {
        let slot = part as usize;
        let table = &self.table.shared;
        claim(rt, table, &mut seat.place, slot);
        let cargo = lift(table, &mut seat.place, slot);
        // The load is the step by which the emptied slot goes home.
        table.load::<Lay<M>>(&mut seat.place, slot + CLAIMS);
        let Cargo::Part(value) = cargo else {
            unreachable!()
        };
        value
    }

    /// Gives the part back. Its value has to stand for the state that the seat has seen.
    pub fn give(&self, seat: &mut Seat<M>, part: u32, value: M::Part)
        requires run { seat.old.run ≡ self.now.run }
        requires holds { Holds seat.old.parts part }
        requires value { M.stands part value
            (state_after M.Machine seat.old.run.start seat.old.seen) }
        ensures { seat.new ≡ record seat.old { parts = without part seat.old.parts } }
    {
        let slot = part as usize;
        let table = &self.table.shared;
        // The load is the step by which the slot comes, to be filled.
        table.load::<Fetch<M>>(&mut seat.place, slot + CLAIMS);
        fill(table, &mut seat.place, slot, Cargo::Part(value));
        clear(table, &mut seat.place, slot);
    }

    /// How many events there are. The seat has then seen all of them.
    pub fn meet(&self, seat: &mut Seat<M>) -> u64
        requires run { seat.old.run ≡ self.now.run }
        ensures seat { seat.new ≡ record seat.old { seen = seat.new.seen } }
        ensures later { SeesLater M.Machine seat.old seat.new.seen }
        ensures count { result ≡ length seat.new.seen }
    {
        self.table.shared.load::<Look<M>>(&mut seat.place, COUNT)
    }

    /// Waits for the Book, and makes room in it for so many events of this seat. At `Err` there was
    /// no memory, and the seat has the promises that it had.
    pub fn promise<R: Wait>(
        &self,
        rt: &R,
        seat: &mut Seat<M>,
        events: u32,
    ) -> Result<(), AllocError>
        requires run { seat.old.run ≡ self.now.run }
        ensures seat { seat.new ≡ record seat.old {
          seen = seat.new.seen;
          promises = seat.old.promises + (if is_ok result then events else 0);
        } }
        ensures later { SeesLater M.Machine seat.old seat.new.seen }
    {
        let table = &self.table.shared;
        take_book(rt, table, &mut seat.place, self.count);
        let made = reserve(table, &mut seat.place, self.count, events);
        let granted = granted(&made, events);
        // Nobody reads this word: the store shows the rule of the table how many events are
        // promised.
        table.store::<Promise<M>>(&mut seat.place, NOTE, u64::from(granted));
        put_back(table, &mut seat.place, self.count);
        made
    }

    /// Waits for the Book, and commits the event, for which the seat has a promise and holds each
    /// part that the event changes.
    ///
    /// `Ok` has the stop that the events have made then, this one included, or `None`. `Err` has
    /// the stop for which the Book does not admit the event: then nothing was committed, the seat
    /// keeps its promise, and the event is dropped. Either way the seat has been told.
    pub fn commit<R: Wait>(
        &self,
        rt: &R,
        seat: &mut Seat<M>,
        event: M::Event,
    ) -> Result<Option<M::Stop>, M::Stop>
        requires run { seat.old.run ≡ self.now.run }
        requires promise { 0 < seat.old.promises }
        requires number { M.number event ≡ seat.old.first }
        requires holds { (k : ℕ) → M.changes (length seat.old.run.start) event k ≡ true → Holds seat.old.parts k }
        requires enabled { (es : List M.Event) → AtCommit M.Machine seat.old event es
            → M.enabled (state_after M.Machine seat.old.run.start es) event }

        // The event stands behind what the seat had seen and some events of other seats.
        ensures ok { IfOk result (λ stop. (es : List M.Event) × AtCommit M.Machine seat.old event es
            × (seat.new ≡ record seat.old {
              seen = es ++ event ∷ [];
              promises = seat.old.promises - 1;
              heard = stop;
            })
            × (stop ≡ M.stop (es ++ event ∷ []))) }
        ensures own { OnOk result (AddsOwn M.Machine seat.old event seat.new.seen) }
        ensures run { OnOk result (IsRun M.Machine (M.opening seat.old.run.start) seat.new.seen) }

        // The Book refused it behind such events alone.
        ensures refused { IfErr result (λ stop. SeesLater M.Machine seat.old seat.new.seen
            × (M.verdict seat.new.seen event ≡ Err stop)
            × (seat.new ≡ record seat.old { seen = seat.new.seen; heard = Some stop })) }
    {
        let table = &self.table.shared;
        take_book(rt, table, &mut seat.place, self.count);
        match admits(table, &mut seat.place, self.count, &event) {
            Ok(()) => {
                let stop = add(table, &mut seat.place, self.count, event);
                seat.heard = stop;
                Ok(stop)
            }
            Err(stop) => {
                drop(event);
                put_back(table, &mut seat.place, self.count);
                seat.heard = Some(stop);
                Err(stop)
            }
        }
    }

    /// Ends the run. The seat has every number and holds no part, so no other seat is left. It
    /// answers the parts, each for the state after all events, and the Book, whose list is the one
    /// that the seat has seen. It takes no memory.
    pub fn close(self, seat: Seat<M>) -> (Vec<M::Part>, M::Book)
        requires run { seat.run ≡ self.run }
        requires all { (seat.first ≡ 0) × (seat.end ≡ self.seats) }
        requires idle { seat.parts ≡ [] }
        ensures count { length result.0.items ≡ length self.run.start }
        ensures stand { StandFrom M.Machine (state_after M.Machine self.run.start seat.seen) 0
            result.0.items }
        ensures events { M.events result.1 ≡ seat.seen }
        ensures run { IsRun M.Machine (M.opening self.run.start) seat.seen }
    {
        let Parts { table, count } = self;
        let Seat {
            place,
            first: _,
            heard: _,
        } = seat;
        let mut closed = table.close_with(place);
        let mut parts = vector_in::<M>(closed.take(count + 1));
        for k in 0..count {
            parts.push_reserved(part_in::<M>(closed.take(k)));
        }
        let book = book_in::<M>(closed.take(count));
        closed.free();
        (parts, book)
    }
}

// How many events there is room for then.
fn granted(made: &Result<(), AllocError>, events: u32) -> u32
    ensures { result ≡ (if is_ok made.now then events else 0) }
{
    if made.is_ok() { events } else { 0 }
}
