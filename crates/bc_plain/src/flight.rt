//! Claims and candidates, asked of each sector and each candidate in turn.
ghost use Rattle.std.specs.Prelude.{◌≡◌, ◌+◌, ◌<◌, ◌≤◌, ◌^◌, ◌++◌, ◌∷◌, [], All, IfOk, IfSome, OnOk};
ghost use Rattle.bc_flight.specs.Claims.{overlaps, conflicts, conflicts_any};
ghost use Rattle.bc_flight.specs.Candidates.{is_over, is_wanted, first_of, kill_over};
ghost use Rattle.bc_flight.specs.Flight.{claim_of, without, IsRanged};

use bc_flight::candidate::{Candidate, Wanted};
use bc_flight::claim::{Claim, Share};
use std::alloc::{AllocError, Global};

/// Whether some sector is in both ranges, by asking each sector of the first.
pub fn overlaps(a: &Claim, b: &Claim) -> bool
    requires a { IsRanged a.now }
    requires b { IsRanged b.now }
    ensures { result ≡ overlaps a.now b.now }
{
    let mut any = false;
    for i in 0..a.count {
        let sector = a.first + u64::from(i);
        any |= b.first <= sector && sector < b.first + u64::from(b.count);
    }
    any
}

/// Whether the two can't stand beside each other.
pub fn conflicts(a: &Claim, b: &Claim) -> bool
    requires a { IsRanged a.now }
    requires b { IsRanged b.now }
    ensures { result ≡ conflicts a.now b.now }
{
    overlaps(a, b) && (a.share == Share::Exclusive || b.share == Share::Exclusive)
}

/// Whether one of these claims can't stand beside it, by asking each.
pub fn is_taken(claim: &Claim, claims: &[Claim]) -> bool
    requires claim { IsRanged claim.now }
    requires claims { All IsRanged claims.now }
    ensures { result ≡ conflicts_any claim.now claims.now }
{
    let mut any = false;
    for other in claims {
        any |= conflicts(claim, other);
    }
    any
}

/// Whether one of these sectors is the candidate's, by asking each.
pub fn is_over(candidate: &Candidate, first: u64, count: u32) -> bool
    requires { first + count < 2 ^ 64 }
    ensures { result ≡ is_over first count candidate.now }
{
    let mut any = false;
    for i in 0..count {
        any |= candidate.key.covers(first + u64::from(i));
    }
    any
}

/// Kills each of these that has one of these sectors.
pub fn kill_over(candidates: &mut [Candidate], first: u64, count: u32)
    requires { first + count < 2 ^ 64 }
    ensures { candidates.new ≡ kill_over first count candidates.old }
{
    for candidate in candidates.iter_mut() {
        if is_over(candidate, first, count) {
            candidate.killed = true;
        }
    }
}

// Whether the candidate is one of those.
fn is_wanted(candidate: &Candidate, wanted: Wanted) -> bool
    ensures { result ≡ is_wanted wanted candidate.now }
{
    match wanted {
        Wanted::Dead => candidate.killed,
        Wanted::Due(before) => !candidate.killed && candidate.number < before,
    }
}

/// The oldest candidate that is wanted, by looking at all of them.
pub fn first_of(candidates: &[Candidate], wanted: Wanted) -> Option<Candidate>
    ensures { result ≡ first_of wanted candidates.now }
{
    let mut first = None;
    for candidate in candidates {
        if is_wanted(candidate, wanted) && first.is_none() {
            first = Some(*candidate);
        }
    }
    first
}

/// The first of these claims that is the seat's.
pub fn claim_of(seat: u32, claims: &[Claim]) -> Option<Claim>
    ensures value { result ≡ claim_of seat claims.now }
    ensures own { IfSome result (λ claim. claim.seat ≡ seat) }
{
    for claim in claims {
        if claim.seat == seat {
            return Some(*claim);
        }
    }
    None
}

// Adds the claim, unless it is the seat's.
fn keep(others: &mut Vec<Claim>, seat: u32, claim: &Claim) -> Result<(), AllocError>
    ensures { OnOk result (others.new.items ≡ others.old.items ++ without seat (claim.now ∷ [])) }
{
    if claim.seat == seat {
        return Ok(());
    }
    others.push(*claim)?;
    Ok(())
}

/// These claims without the seat's.
pub fn without(alloc: Global, seat: u32, claims: &[Claim]) -> Result<Vec<Claim>, AllocError>
    ensures { IfOk result (λ others. others.items ≡ without seat claims.now) }
{
    let mut others = Vec::new(alloc);
    for claim in claims {
        keep(&mut others, seat, claim)?;
    }
    Ok(others)
}
