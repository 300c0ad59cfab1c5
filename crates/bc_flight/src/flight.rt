//! The claims that stand, and the candidates beside them.
ghost use Rattle.std.specs.Prelude.{◌≡◌, ◌↔◌, ◌+◌, ◌-◌, ◌<◌, ◌≤◌, ◌^◌, ◌++◌, ◌∷◌, [], IfOk, IfSome, IsNone, OnSome, IfNone, true, false, Some, None, All, length, slice_get};
ghost use Rattle.bc_flight.specs.Claims.{conflicts_any};
ghost use Rattle.bc_flight.specs.Candidates.{after_claim, first_of, without_first, kill_over, key_of, AreNumbered};
ghost use Rattle.bc_flight.specs.Flight.{claim_at, claim_of, without, IsRanged, IsInOrder, HasConflict};
ghost use Rattle.bc_flight.specs.declared.candidate.Wanted.{Wanted};

use crate::candidate::{Candidate, Candidates, Wanted};
use crate::claim::{Claim, Share};
use bc_key::Key;
use std::alloc::{AllocError, Global};
use std::marker::Model;

/// The claims that stand, at most one for each seat and no two that conflict, and the candidates. A
/// claim that is exclusive kills the candidates that it overlaps. All memory is taken when this is
/// made.
#[derive(Drop)]
pub struct Flight {
    seats: u32,
    claims: Vec<Claim>,
    candidates: Candidates,
}

impl Model for Flight {
    ghost use Rattle.std.specs.Prelude.{◌≤◌, vec_capacity};
    ghost use Rattle.bc_flight.specs.Flight.{InFlight, IsInOrder};

    ghost Value = { InFlight };

    ghost view = { λ f. record { seats = f.seats; claims = f.claims.items; candidates = f.candidates.candidates; next = f.candidates.next } };

    ghost invariant = { λ f. IsInOrder f.seats f.claims.items × (f.seats ≤ vec_capacity f.claims) };
}

// Whether the claim conflicts with one of these.
fn conflicts_with(claim: &Claim, claims: &[Claim]) -> bool
    requires claim { IsRanged claim.now }
    requires claims { All IsRanged claims.now }
    ensures { result ≡ conflicts_any claim.now claims.now }
{
    for other in claims {
        if claim.conflicts(other) {
            return true;
        }
    }
    false
}

// Where the seat's claim stands.
fn place_of(claims: &[Claim], seat: u32) -> Option<usize>
    ensures some { IfSome result (λ i. (i < length claims.now) × IfSome (slice_get claims.now i) (λ c. c.seat ≡ seat)) }
    ensures none { IfNone result (claim_of seat claims.now ≡ None) }
{
    for (i, claim) in claims.iter().enumerate() {
        if claim.seat == seat {
            return Some(i);
        }
    }
    None
}

impl Flight {
    /// No claim and no candidate stands, and this many seats may claim. The first candidate will have
    /// number 0.
    pub fn new(alloc: Global, seats: u32) -> Result<Flight, AllocError>
        ensures { IfOk result (λ f. (f.seats ≡ seats) × (f.claims ≡ []) × (f.candidates ≡ []) × (f.next ≡ 0)) }
    {
        let claims = Vec::with_capacity(alloc, seats as usize)?;
        let candidates = Candidates::new(alloc)?;
        Ok(Flight {
            seats,
            claims,
            candidates,
        })
    }

    /// Claims `count` sectors from `first` on for this seat, where no claim that stands conflicts with
    /// that. An exclusive claim kills the candidates that have one of these sectors. Takes no memory.
    pub fn try_claim(&mut self, seat: u32, first: u64, count: u32, share: Share) -> Option<Claim>
        requires seat { seat < self.old.seats }
        requires none { claim_of seat self.old.claims ≡ None }
        requires range { (1 ≤ count) × (first + count < 2 ^ 64) }
        ensures refused { IsNone result ↔ (conflicts_any (claim_at seat first count share) self.old.claims ≡ true) }
        ensures taken { IfNone result (HasConflict (claim_at seat first count share) self.old.claims) }
        ensures answer { IfSome result (λ c. c ≡ claim_at seat first count share) }
        ensures claimed { OnSome result (self.new.claims ≡ self.old.claims ++ claim_at seat first count share ∷ []) }
        ensures same { IfNone result (self.new.claims ≡ self.old.claims) }
        ensures kept { IfNone result (self.new.candidates ≡ self.old.candidates) }
        ensures killed { OnSome result (self.new.candidates ≡ after_claim (claim_at seat first count share) self.old.candidates) }
        ensures next { self.new.next ≡ self.old.next }
        ensures seats { self.new.seats ≡ self.old.seats }
    {
        let claim = Claim {
            seat,
            first,
            count,
            share,
        };
        if conflicts_with(&claim, &self.claims) {
            return None;
        }
        let Ok(()) = self.claims.push(claim) else {
            unreachable!()
        };
        self.candidates.claimed(&claim);
        Some(claim)
    }

    /// Ends a claim that stands.
    pub fn release(&mut self, claim: Claim)
        requires { claim_of claim.seat self.old.claims ≡ Some claim }
        ensures claims { self.new.claims ≡ without claim.seat self.old.claims }
        ensures candidates { self.new.candidates ≡ self.old.candidates }
        ensures next { self.new.next ≡ self.old.next }
        ensures seats { self.new.seats ≡ self.old.seats }
    {
        let Some(place) = place_of(&self.claims, claim.seat) else {
            unreachable!()
        };
        self.claims.remove(place);
    }

    /// Notes a candidate, which lies where its key says, and answers its number: the next one. Takes no
    /// memory.
    pub fn candidate(&mut self, key: Key) -> u64
        requires room { length self.old.candidates < 64 }
        requires number { self.old.next < 2 ^ 64 - 1 }
        ensures number { result ≡ self.old.next }
        ensures candidates { self.new.candidates ≡ self.old.candidates ++ record { number = result; key = key; killed = false } ∷ [] }
        ensures next { self.new.next ≡ self.old.next + 1 }
        ensures claims { self.new.claims ≡ self.old.claims }
        ensures seats { self.new.seats ≡ self.old.seats }
    {
        self.candidates.add(key)
    }

    /// Takes out the oldest candidate that was killed, if there is one, so that its place can be let go.
    pub fn dead(&mut self) -> Option<Key>
        ensures key { result ≡ key_of (first_of Wanted.Dead self.old.candidates) }
        ensures candidates { self.new.candidates ≡ without_first Wanted.Dead self.old.candidates }
        ensures next { self.new.next ≡ self.old.next }
        ensures claims { self.new.claims ≡ self.old.claims }
        ensures seats { self.new.seats ≡ self.old.seats }
    {
        self.candidates.take(Wanted::Dead)
    }

    /// Takes out the oldest candidate that wasn't killed and has a number below `before`, if there is one.
    /// Whoever makes a barrier of the backing device reads `next` first, and settles those below it.
    pub fn settled(&mut self, before: u64) -> Option<Key>
        ensures key { result ≡ key_of (first_of (Wanted.Due before) self.old.candidates) }
        ensures candidates { self.new.candidates ≡ without_first (Wanted.Due before) self.old.candidates }
        ensures next { self.new.next ≡ self.old.next }
        ensures claims { self.new.claims ≡ self.old.claims }
        ensures seats { self.new.seats ≡ self.old.seats }
    {
        self.candidates.take(Wanted::Due(before))
    }

    /// Kills the candidates that have one of these sectors.
    pub fn kill(&mut self, first: u64, count: u32)
        requires { first + count < 2 ^ 64 }
        ensures candidates { self.new.candidates ≡ kill_over first count self.old.candidates }
        ensures next { self.new.next ≡ self.old.next }
        ensures claims { self.new.claims ≡ self.old.claims }
        ensures seats { self.new.seats ≡ self.old.seats }
    {
        self.candidates.kill(first, count);
    }

    /// The claims that stand, the oldest first: of each seat that there is one at most, and no two that
    /// conflict. Each of them may be released.
    pub fn claims(&self) -> &[Claim]
        ensures value { result.now ≡ self.now.claims }
        ensures in_order { IsInOrder self.now.seats self.now.claims }
        ensures few { length self.now.claims ≤ self.now.seats }
        ensures stand { All (λ c. claim_of c.seat self.now.claims ≡ Some c) self.now.claims }
    {
        &self.claims
    }

    /// The candidates, the oldest first, killed ones that weren't taken out included: at most `MOST`,
    /// whose numbers rise and stay below the next one.
    pub fn candidates(&self) -> &[Candidate]
        ensures value { result.now ≡ self.now.candidates }
        ensures numbered { AreNumbered 0 self.now.next self.now.candidates }
        ensures few { length self.now.candidates ≤ 64 }
    {
        self.candidates.items()
    }

    /// How many candidates stand, killed ones that weren't taken out included: at most `MOST`.
    pub fn waiting(&self) -> usize
        ensures count { result ≡ length self.now.candidates }
        ensures most { result ≤ 64 }
    {
        self.candidates.len()
    }

    /// The number of the next candidate.
    pub fn next(&self) -> u64
        ensures { result ≡ self.now.next }
    {
        self.candidates.next()
    }

    /// How many seats may claim.
    pub fn seats(&self) -> u32
        ensures { result ≡ self.now.seats }
    {
        self.seats
    }
}
