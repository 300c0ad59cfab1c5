//! Claims and candidates.
ghost use Rattle.std.specs.Prelude.{◌≡◌, ℕ, ◌<◌, [], None};
ghost use Rattle.bc_flight.specs.Flight.{claim_of};

use crate::measured::Measured;
use crate::random::Random;
use bc_flight::candidate::MOST;
use bc_flight::claim::Share;
use bc_flight::flight::Flight;
use bc_key::Key;
use std::io;
use std::time::CpuClock;

// A seat that has none claims 1 to 64 sectors, with a chance of a quarter exclusively, and the first of
// them is answered, or 0 where the claim is refused.
fn claim_one(flight: &mut Flight, random: &mut Random, seat: u32) -> u64
    requires seat { seat < flight.old.seats }
    requires none { claim_of seat flight.old.claims ≡ None }
    ensures others { (k : ℕ) → seat < k → claim_of k flight.old.claims ≡ None
        → claim_of k flight.new.claims ≡ None }
    ensures seats { flight.new.seats ≡ flight.old.seats }
{
    let first = u64::from(random.below(1 << 16));
    let choice = random.below(256);
    let share = match choice % 4 {
        0 => Share::Exclusive,
        _ => Share::Shared,
    };
    match flight.try_claim(seat, first, 1 + choice / 4, share) {
        Some(claim) => claim.first,
        None => 0,
    }
}

// Each seat claims, and the sum of what is answered is answered.
fn claim_all(flight: &mut Flight, random: &mut Random) -> u64
    requires { flight.old.claims ≡ [] }
    ensures { flight.new.seats ≡ flight.old.seats }
{
    let mut sum = 0u64;
    for seat in 0..flight.seats() {
        sum = sum.wrapping_add(claim_one(flight, random, seat));
    }
    sum
}

// Ends one of the claims.
fn release_one(flight: &mut Flight, random: &mut Random)
    ensures { flight.new.seats ≡ flight.old.seats }
{
    let claims = flight.claims();
    if claims.is_empty() {
        return;
    }
    let claim = claims[random.next() as usize % claims.len()];
    flight.release(claim);
}

// Ends all claims, in a random order.
fn release_all(flight: &mut Flight, random: &mut Random)
    ensures { flight.new.seats ≡ flight.old.seats }
{
    for _claim in 0..flight.seats() {
        release_one(flight, random);
    }
}

/// Rounds in which this many seats claim, and all claims end.
pub fn measure_claims<R: CpuClock + AllocGlobal>(
    rt: &R,
    size: u32,
    rounds: u32,
) -> io::Result<Measured> {
    let mut flight = Flight::new(rt.alloc(), size)?;
    let mut random = Random::new();
    let mut sum = 0u64;
    let begun = rt.process_cpu_time()?;
    for _round in 0..rounds {
        if flight.claims().is_empty() {
            let granted = claim_all(&mut flight, &mut random);
            sum = sum.wrapping_mul(31).wrapping_add(granted);
            release_all(&mut flight, &mut random);
        }
    }
    let ended = rt.process_cpu_time()?;
    Ok(Measured::new(sum, begun, ended))
}

// Notes a candidate of 8 sectors, if there is room for one.
fn note(flight: &mut Flight, random: &mut Random) {
    let first = u64::from(random.below(1 << 10));
    if flight.waiting() < MOST && flight.next() < u64::MAX {
        flight.candidate(Key::new(first + 8, 8, false, None));
    }
}

// Takes out all candidates, those that a write killed first.
fn take_all(flight: &mut Flight) -> u64 {
    let mut sum = 0u64;
    for _candidate in 0..=MOST {
        if let Some(key) = flight.dead() {
            sum = sum.wrapping_mul(31).wrapping_add(key.end);
        }
    }
    let before = flight.next();
    for _candidate in 0..=MOST {
        if let Some(key) = flight.settled(before) {
            sum = sum.wrapping_mul(37).wrapping_add(key.end);
        }
    }
    sum
}

/// Rounds in which this many candidates are noted, three ranges of 64 sectors are killed, and all are
/// taken out.
pub fn measure_candidates<R: CpuClock + AllocGlobal>(
    rt: &R,
    size: u32,
    rounds: u32,
) -> io::Result<Measured> {
    let mut flight = Flight::new(rt.alloc(), 1)?;
    let mut random = Random::new();
    let mut sum = 0u64;
    let begun = rt.process_cpu_time()?;
    for _round in 0..rounds {
        for _candidate in 0..size {
            note(&mut flight, &mut random);
        }
        for _kill in 0..3 {
            flight.kill(u64::from(random.below(1 << 10)), 64);
        }
        sum = sum.wrapping_mul(31).wrapping_add(take_all(&mut flight));
    }
    let ended = rt.process_cpu_time()?;
    Ok(Measured::new(sum, begun, ended))
}
