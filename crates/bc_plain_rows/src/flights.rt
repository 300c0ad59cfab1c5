//! Claims and candidates beside plain lists of them, at random.
ghost use Rattle.std.specs.Prelude.{◌≡◌, ◌+◌, ◌<◌, ◌≤◌, ◌^◌, None};
ghost use Rattle.bc_flight.specs.Flight.{claim_of, IsRanged};

use crate::random::next;
use bc_flight::candidate::{Candidate, MOST, Wanted};
use bc_flight::claim::{Claim, Share};
use bc_flight::flight::Flight;
use bc_key::Key;
use bc_plain::flight::{claim_of, first_of, is_taken, kill_over, without};
use std::alloc::{AllocError, Global};
use std::test::Fail;

// How many seats claim.
const SEATS: u32 = 12;

// How many seats a cache has at most.
const ALL_SEATS: u32 = 320;

// What a flight is to have.
#[derive(Drop)]
struct Plain {
    claims: Vec<Claim>,
    candidates: Vec<Candidate>,
    next: u64,
}

impl Plain {
    // No claim and no candidate.
    fn new(alloc: Global) -> Plain {
        Plain {
            claims: Vec::new(alloc),
            candidates: Vec::new(alloc),
            next: 0,
        }
    }

    // Takes out the oldest candidate that is wanted.
    fn take(&mut self, wanted: Wanted) -> Option<Key> {
        let oldest = first_of(&self.candidates, wanted)?;
        self.candidates.retain(|c| c.number != oldest.number);
        Some(oldest.key)
    }

    // Whether the flight has just these.
    fn agrees(&self, flight: &Flight) -> bool {
        self.claims.as_slice() == flight.claims()
            && self.candidates.as_slice() == flight.candidates()
            && self.candidates.len() == flight.waiting()
            && self.next == flight.next()
    }
}

// Claims in both, and answers whether the claim was granted exactly where nothing is in its way.
fn claim(flight: &mut Flight, plain: &mut Plain, wanted: &Claim) -> Result<bool, AllocError>
    requires seat { wanted.now.seat < flight.old.seats }
    requires none { claim_of wanted.now.seat flight.old.claims ≡ None }
    requires range { IsRanged wanted.now }
    ensures { flight.new.seats ≡ flight.old.seats }
{
    let taken = is_taken(wanted, flight.claims());
    let Claim {
        seat,
        first,
        count,
        share,
    } = *wanted;
    let Some(granted) = flight.try_claim(seat, first, count, share) else {
        return Ok(taken);
    };
    plain.claims.push(granted)?;
    if share == Share::Exclusive {
        kill_over(&mut plain.candidates, first, count);
    }
    Ok(!taken && granted == *wanted)
}

// Claims in both where the seat has no claim, and else ends its claim in both.
fn claim_or_release(
    alloc: Global,
    flight: &mut Flight,
    plain: &mut Plain,
    wanted: &Claim,
) -> Result<bool, AllocError>
    requires seat { wanted.now.seat < flight.old.seats }
    requires range { IsRanged wanted.now }
    ensures { flight.new.seats ≡ flight.old.seats }
{
    let Some(standing) = claim_of(wanted.seat, flight.claims()) else {
        return claim(flight, plain, wanted);
    };
    flight.release(standing);
    plain.claims = without(alloc, wanted.seat, &plain.claims)?;
    Ok(true)
}

// Notes a candidate in both, where there is room for it.
fn note(flight: &mut Flight, plain: &mut Plain, key: Key) -> Result<bool, AllocError>
    ensures { flight.new.seats ≡ flight.old.seats }
{
    if flight.waiting() >= MOST || flight.next() == u64::MAX {
        return Ok(plain.candidates.len() == MOST);
    }
    let number = flight.candidate(key);
    plain.candidates.push(Candidate {
        number,
        key,
        killed: false,
    })?;
    plain.next = number.saturating_add(1);
    Ok(true)
}

// Kills in both.
fn kill(flight: &mut Flight, plain: &mut Plain, first: u64, count: u32)
    requires { first + count < 2 ^ 64 }
    ensures { flight.new.seats ≡ flight.old.seats }
{
    flight.kill(first, count);
    kill_over(&mut plain.candidates, first, count);
}

// Makes a random call in both, and answers whether both said the same.
fn change(
    alloc: Global,
    flight: &mut Flight,
    plain: &mut Plain,
    random: u64,
) -> Result<bool, AllocError>
    requires { flight.old.seats ≡ 12 }
    ensures { flight.new.seats ≡ 12 }
{
    let first = random / 1024 % 64;
    let count = (random / 65536 % 9 + 1) as u32;
    match random / 64 % 16 {
        0..=7 => {
            let seat = (random / 4096 % 12) as u32;
            let share = match random / 262144 % 3 {
                0 => Share::Exclusive,
                _ => Share::Shared,
            };
            let wanted = Claim {
                seat,
                first,
                count,
                share,
            };
            claim_or_release(alloc, flight, plain, &wanted)
        }
        8..=11 => note(flight, plain, Key::new(first + 8, 8, false, None)),
        12 => {
            kill(flight, plain, first, count);
            Ok(true)
        }
        13 => Ok(flight.dead() == plain.take(Wanted::Dead)),
        _ => {
            let before = plain.next.saturating_sub(random / 8192 % 32);
            Ok(flight.settled(before) == plain.take(Wanted::Due(before)))
        }
    }
}

#[test]
fn claims_and_candidates_beside_plain_lists(rt: HostRuntime) -> Result<(), Fail> {
    let mut random: u64 = 1;
    let mut most = 0;
    for _round in 0..4 {
        let mut flight = Flight::new(rt.alloc(), SEATS)?;
        let mut plain = Plain::new(rt.alloc());
        for _step in 0..1000 {
            random = next(random);
            assert!(rt; change(rt.alloc(), &mut flight, &mut plain, random)?);
            assert!(rt; plain.agrees(&flight));
            most = flight.waiting().max(most);
        }
    }
    assert_eq!(rt; most, MOST);
    Ok(())
}

// Claims eight sectors that no other seat claims, and answers whether that was granted.
fn claim_own(flight: &mut Flight, seat: u32) -> bool
    requires { seat < flight.old.seats }
    ensures { flight.new.seats ≡ flight.old.seats }
{
    let None = claim_of(seat, flight.claims()) else {
        return false;
    };
    let first = u64::from(seat) * 8;
    flight.try_claim(seat, first, 8, Share::Exclusive).is_some()
}

// Tries to claim a sector that the seat before this one claimed, and answers whether that was
// refused.
fn is_refused(flight: &mut Flight, seat: u32) -> bool
    requires { (1 ≤ seat) × (seat < flight.old.seats) }
    ensures { flight.new.seats ≡ flight.old.seats }
{
    let None = claim_of(seat, flight.claims()) else {
        return false;
    };
    let last = u64::from(seat) * 8 - 1;
    flight.try_claim(seat, last, 1, Share::Shared).is_none()
}

// Ends the seat's claim, and answers whether it had one.
fn release_own(flight: &mut Flight, seat: u32) -> bool
    ensures { flight.new.seats ≡ flight.old.seats }
{
    let Some(standing) = claim_of(seat, flight.claims()) else {
        return false;
    };
    flight.release(standing);
    true
}

// Notes a candidate of eight sectors behind all claims, where there is room for it, and answers
// its number.
fn note_behind(flight: &mut Flight, place: u64) -> Option<u64>
    requires { place < 64 }
    ensures { flight.new.seats ≡ flight.old.seats }
{
    if flight.waiting() >= MOST || flight.next() == u64::MAX {
        return None;
    }
    let end = 4096 + place * 8;
    Some(flight.candidate(Key::new(end, 8, false, None)))
}

#[test]
fn all_seats_and_all_candidates(rt: HostRuntime) -> Result<(), Fail> {
    let mut flight = Flight::new(rt.alloc(), ALL_SEATS)?;
    for seat in 0..ALL_SEATS {
        assert!(rt; claim_own(&mut flight, seat));
    }
    for place in 0..64u64 {
        assert_eq!(rt; note_behind(&mut flight, place), Some(place));
    }
    assert_eq!(rt; flight.claims().len(), 320);
    assert_eq!(rt; flight.waiting(), MOST);

    // There is room for no other candidate, and no claim of another's sectors is granted.
    assert_eq!(rt; note_behind(&mut flight, 0), None);
    assert!(rt; release_own(&mut flight, 319));
    assert!(rt; is_refused(&mut flight, 319));
    assert!(rt; claim_own(&mut flight, 319));

    for seat in 0..ALL_SEATS {
        assert!(rt; release_own(&mut flight, seat));
    }
    flight.kill(4088, 256);
    for place in 0..64u64 {
        let taken = if place < 32 {
            flight.dead()
        } else {
            flight.settled(64)
        };
        assert_eq!(rt; taken, Some(Key::new(4096 + place * 8, 8, false, None)));
    }
    assert!(rt; flight.claims().is_empty());
    assert_eq!(rt; flight.waiting(), 0);
    assert_eq!(rt; flight.next(), 64);
    Ok(())
}
