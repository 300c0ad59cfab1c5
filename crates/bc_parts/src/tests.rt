//! A machine of counters, and threads that raise them.
ghost use Rattle.std.specs.Prelude.{◌≡◌, ◌≢◌, ℕ, ◌+◌, ◌-◌, ◌^◌, ◌<◌, ◌≤◌, ◌==◌, ◌&&◌, not, false};
ghost use Rattle.std.specs.Prelude.{List, [], ◌∷◌, length, fold, Some, None, IfOk, if◌then◌else◌};
ghost use Rattle.std.specs.Prelude.{vec_len, vec_capacity};
ghost use Rattle.std.specs.Thread.{IsSync};
ghost use Rattle.bc_parts.specs.Machine.{state_after, StandFrom};
ghost use Rattle.bc_parts.specs.Seat.{Holds};
ghost use Rattle.bc_parts.specs.Counters.{first_end, first_end-ended, admitted, admitted-err};
ghost use Rattle.bc_parts.specs.Counters.{raised, raised-other};

use crate::machine::Machine;
use crate::not_made::NotMade;
use crate::parts::Parts;
use crate::seat::Seat;
use std::alloc::{AllocError, Global};
use std::sync::Wait;
use std::test::Fail;
use std::thread::{Threads, join};

#[derive(Drop)]
struct Counter {
    value: u64,
}

/// A seat raises a counter by one, or ends the run.
#[derive(Clone, Copy, Drop)]
struct Tick {
    seat: u32,
    part: u32,
    ends: bool,
}

#[derive(Drop)]
struct Log {
    ticks: Vec<Tick>,
    spare: usize,
    ghost room: { vec_len ticks + spare ≤ vec_capacity ticks },
}

struct Counters;

impl Machine for Counters {
    ghost use Rattle.bc_parts.specs.declared.tests.Tick.{Tick};

    type Part = Counter;

    type Event = Tick;

    type Book = Log;

    type Stop = u32;

    ghost State = { ℕ → ℕ };

    ghost opening = { λ _ _. 0 };

    ghost after = { λ x e. raised x e.part e.ends };

    ghost enabled = { λ x e. e.ends ≡ false → x e.part + 1 < 2 ^ 64 };

    ghost stands = { λ k p x. p.value ≡ x k };

    ghost changes = { λ _ e k. k == e.part && not e.ends };

    ghost number = { λ e. e.seat };

    ghost events = { λ b. b.ticks.items };

    ghost room = { λ b. b.spare };

    ghost verdict = { λ es _. admitted (first_end (λ e. e.ends) (λ e. e.seat) es) };

    ghost stop = { first_end (λ e. e.ends) (λ e. e.seat) };

    ghost frame = { λ _ es k p e run may other is. raised-other
        (fold (λ (x : ℕ → ℕ) (y : Tick). raised x y.part y.ends) (λ _. 0) es) e.part e.ends k
        p.value other is };

    ghost stays = { first_end-ended (λ e. e.ends) (λ e. e.seat) };

    ghost names = { λ es _ s is. admitted-err (first_end (λ e. e.ends) (λ e. e.seat) es) s is };

    fn put_event(book: &mut Log, event: Tick) {
        book.spare -= 1;
        book.ticks.push_reserved(event);
    }

    fn reserve(book: &mut Log, more: usize) -> Result<(), AllocError> {
        let spare = book.spare.checked_add(more).ok_or(AllocError)?;
        book.ticks.reserve(spare)?;
        book.spare = spare;
        Ok(())
    }

    fn admits(book: &Log, event: &Tick) -> Result<(), u32> {
        let _ = event;
        match Counters::stopped(book) {
            None => Ok(()),
            Some(seat) => Err(seat),
        }
    }

    fn stopped(book: &Log) -> Option<u32> {
        book.ticks
            .iter()
            .find(|tick| tick.ends)
            .map(|tick| tick.seat)
    }
}

// Raises a counter in hand, unless the run has ended.
fn raise<R: Wait>(
    rt: &R,
    parts: &Parts<Counters>,
    seat: &mut Seat<Counters>,
    part: u32,
    counter: Counter,
) -> Counter
    requires run { seat.old.run ≡ parts.now.run }
    requires promise { 0 < seat.old.promises }
    requires holds { Holds seat.old.parts part }
    requires value { counter.value
        ≡ state_after ⟦<Counters as Machine>⟧ seat.old.run.start seat.old.seen part }
    ensures run { seat.new.run ≡ seat.old.run }
    ensures numbers { (seat.new.first ≡ seat.old.first) × (seat.new.end ≡ seat.old.end) }
    ensures parts { seat.new.parts ≡ seat.old.parts }
    ensures promises { seat.old.promises ≤ seat.new.promises + 1 }
    ensures value { result.value
        ≡ state_after ⟦<Counters as Machine>⟧ seat.new.run.start seat.new.seen part }
    ensures others { (k : ℕ) → Holds seat.old.parts k → k ≢ part
        → state_after ⟦<Counters as Machine>⟧ seat.new.run.start seat.new.seen k
        ≡ state_after ⟦<Counters as Machine>⟧ seat.old.run.start seat.old.seen k }
{
    if counter.value >= u64::MAX {
        return counter;
    }
    let seat_number = seat.number();
    let tick = Tick {
        seat: seat_number,
        part,
        ends: false,
    };
    match parts.commit(rt, seat, tick) {
        Ok(_) => Counter {
            value: counter.value + 1,
        },
        Err(_) => counter,
    }
}

// Ends the run, unless it has ended.
fn end<R: Wait>(
    rt: &R,
    parts: &Parts<Counters>,
    seat: &mut Seat<Counters>,
) -> Result<Option<u32>, u32>
    requires run { seat.old.run ≡ parts.now.run }
    requires promise { 0 < seat.old.promises }
    ensures run { seat.new.run ≡ seat.old.run }
    ensures numbers { (seat.new.first ≡ seat.old.first) × (seat.new.end ≡ seat.old.end) }
    ensures parts { seat.new.parts ≡ seat.old.parts }
    ensures promises { seat.old.promises ≤ seat.new.promises + 1 }
{
    let tick = Tick {
        seat: seat.number(),
        part: 0,
        ends: true,
    };
    match parts.commit(rt, seat, tick) {
        Ok(stop) => Ok(stop),
        Err(stop) => Err(stop),
    }
}

// Takes the first counter, raises it, and gives it back.
fn bump<R: Wait>(rt: &R, parts: &Parts<Counters>, seat: &mut Seat<Counters>)
    requires run { seat.old.run ≡ parts.now.run }
    requires part { 0 < length parts.now.run.start }
    requires idle { seat.old.parts ≡ [] }
    ensures run { seat.new.run ≡ seat.old.run }
    ensures numbers { (seat.new.first ≡ seat.old.first) × (seat.new.end ≡ seat.old.end) }
    ensures idle { seat.new.parts ≡ [] }
{
    if parts.promise(rt, seat, 1).is_ok() {
        let counter = parts.take(rt, seat, 0);
        let counter = raise(rt, parts, seat, 0, counter);
        parts.give(seat, 0, counter);
    }
}

// Takes two counters in their order, raises both, and gives them back.
fn turn<R: Wait>(rt: &R, parts: &Parts<Counters>, seat: &mut Seat<Counters>, from: u32)
    requires run { seat.old.run ≡ parts.now.run }
    requires part { (from < 3) × (length parts.now.run.start ≡ 4) }
    requires idle { seat.old.parts ≡ [] }
    ensures run { seat.new.run ≡ seat.old.run }
    ensures numbers { (seat.new.first ≡ seat.old.first) × (seat.new.end ≡ seat.old.end) }
    ensures idle { seat.new.parts ≡ [] }
{
    if parts.promise(rt, seat, 2).is_ok() {
        let low = parts.take(rt, seat, from);
        let high = parts.take(rt, seat, from + 1);
        let low = raise(rt, parts, seat, from, low);
        parts.give(seat, from, low);
        let high = raise(rt, parts, seat, from + 1, high);
        parts.give(seat, from + 1, high);
    }
}

// So many turns of a seat that has one number.
fn work<R: Wait>(
    rt: &R,
    parts: &Parts<Counters>,
    mut seat: Seat<Counters>,
    turns: u32,
) -> Seat<Counters>
    requires run { seat.run ≡ parts.now.run }
    requires part { 0 < length parts.now.run.start }
    requires idle { seat.parts ≡ [] }
    ensures run { result.run ≡ seat.run }
    ensures numbers { (result.first ≡ seat.first) × (result.end ≡ seat.end) }
    ensures idle { result.parts ≡ [] }
{
    for k in 0..turns {
        if parts.part_count() == 4 {
            turn(rt, parts, &mut seat, k % 3);
        } else {
            bump(rt, parts, &mut seat);
        }
    }
    seat
}

// Splits a seat into seats of one number each, which work in threads of their own, and joins them.
fn crowd<R: Threads + Wait + Sync>(
    rt: &R,
    parts: &Parts<Counters>,
    mut seat: Seat<Counters>,
    seats: u32,
    turns: u32,
) -> Seat<Counters>
    requires run { seat.run ≡ parts.now.run }
    requires part { 0 < length parts.now.run.start }
    requires seats { (0 < seats) × (seat.end ≡ seat.first + seats) × (seat.end < 2 ^ 32) }
    requires idle { seat.parts ≡ [] }
    ensures run { result.run ≡ seat.run }
    ensures numbers { (result.first ≡ seat.first) × (result.end ≡ seat.end) }
    ensures idle { result.parts ≡ [] }
{
    if seats == 1 {
        return work(rt, parts, seat, turns);
    }
    let half = seats / 2;
    let at = seat.number() + half;
    let above = parts.split(&mut seat, at);
    let (mut low, high) = join(
        rt,
        move || -> Seat<Counters>
            requires { IsSync R.row × (seat.run ≡ parts.now.run) × (0 < length parts.now.run.start)
                × (0 < half) × (seat.end ≡ seat.first + half) × (seat.end < 2 ^ 32)
                × (seat.parts ≡ []) }
            ensures { (result.run ≡ seat.run) × (result.first ≡ seat.first)
                × (result.end ≡ seat.end) × (result.parts ≡ []) }
        { crowd(rt, parts, seat, half, turns) },
        move || -> Seat<Counters>
            requires { IsSync R.row × (above.run ≡ parts.now.run) × (0 < length parts.now.run.start)
                × (half < seats) × (above.end ≡ above.first + (seats - half))
                × (above.end < 2 ^ 32) × (above.parts ≡ []) }
            ensures { (result.run ≡ above.run) × (result.first ≡ above.first)
                × (result.end ≡ above.end) × (result.parts ≡ []) }
        { crowd(rt, parts, above, seats - half, turns) },
    );
    parts.join(&mut low, high);
    low
}

fn zero_counters(alloc: Global, count: u32) -> Result<Vec<Counter>, AllocError>
    ensures { IfOk result
        (λ v. (length v.items ≡ count) × StandFrom ⟦<Counters as Machine>⟧ (λ _. 0) 0 v.items) }
{
    let mut counters = Vec::new(alloc);
    for _ in 0..count {
        counters.push(Counter { value: 0 })?;
    }
    Ok(counters)
}

// A run of so many seats over so many counters: at its end these are what the events of the log
// make of zeros.
fn run<R: Threads + Wait + Sync>(
    rt: &R,
    alloc: Global,
    counters: u32,
    seats: u32,
    turns: u32,
) -> Result<(Vec<Counter>, Log), AllocError>
    requires { (0 < counters) × (0 < seats) }
    ensures { IfOk result (λ r. StandFrom ⟦<Counters as Machine>⟧
        (fold (λ x e. raised x e.part e.ends) (λ _. 0) r.1.ticks.items) 0 r.0.items) }
{
    let parts = zero_counters(alloc, counters)?;
    let log = Log {
        ticks: Vec::new(alloc),
        spare: 0,
    };
    match Parts::<Counters>::new(alloc, parts, log, seats) {
        Ok((parts, seat)) => {
            let seat = crowd(rt, &parts, seat, seats, turns);
            Ok(parts.close(seat))
        }
        Err(NotMade { parts: _, book: _ }) => Err(AllocError),
    }
}

#[test]
fn two_seats_raise_one_counter(rt: HostRuntime) -> Result<(), Fail> {
    let (counters, log) = run(&rt, rt.alloc(), 1, 2, 1000)?;
    assert_eq!(rt; log.ticks.len(), 2000);
    for number in 0..2 {
        let own = log.ticks.iter().filter(|tick| tick.seat == number).count();
        assert_eq!(rt; own, 1000, "seat {number}");
    }
    assert_eq!(rt; counters.len(), 1);
    assert_eq!(rt; counters[0].value, 2000);
    Ok(())
}

#[test]
fn sixteen_seats_raise_four_counters(rt: HostRuntime) -> Result<(), Fail> {
    let (counters, log) = run(&rt, rt.alloc(), 4, 16, 30)?;
    assert_eq!(rt; log.ticks.len(), 16 * 30 * 2);
    for number in 0..16 {
        let own = log.ticks.iter().filter(|tick| tick.seat == number);
        let order: [u32; 6] = [0, 1, 1, 2, 2, 3];
        for (k, tick) in own.enumerate() {
            assert_eq!(rt; tick.part, order[k % 6], "seat {number}, event {k}");
        }
    }
    let values: [u64; 4] = [160, 320, 320, 160];
    for (counter, value) in counters.iter().zip(values) {
        assert_eq!(rt; counter.value, value);
    }
    Ok(())
}

#[test]
fn a_refused_commit_changes_nothing(rt: HostRuntime) -> Result<(), Fail> {
    let alloc = rt.alloc();
    let log = Log {
        ticks: Vec::new(alloc),
        spare: 0,
    };
    let counters = zero_counters(alloc, 1)?;
    let (counters, log) = match Parts::<Counters>::new(alloc, counters, log, 1) {
        Ok((parts, mut seat)) => {
            assert!(rt; parts.promise(&rt, &mut seat, 3).is_ok());
            assert_eq!(rt; seat.heard(), None);
            let first = end(&rt, &parts, &mut seat);
            assert_eq!(rt; first, Ok(Some(0)));
            assert_eq!(rt; parts.meet(&mut seat), 1);
            let second = end(&rt, &parts, &mut seat);
            assert_eq!(rt; second, Err(0));
            assert_eq!(rt; parts.meet(&mut seat), 1);
            assert_eq!(rt; seat.heard(), Some(0));
            parts.close(seat)
        }
        Err(NotMade { parts: _, book: _ }) => return Err("no memory")?,
    };
    assert_eq!(rt; counters.len(), 1);
    assert_eq!(rt; log.ticks.len(), 1);
    assert_eq!(rt; log.spare, 2);
    Ok(())
}
