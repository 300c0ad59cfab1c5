//! The entries that count, of those that are found.
ghost use Rattle.std.specs.Prelude.{ℕ, ◌<◌, ◌≤◌, length, All, Contains, IfOk, IfErr};
ghost use Rattle.std.specs.Ordering.{nat_cmp};
ghost use Rattle.std.specs.BTreeMap.{get};
ghost use Rattle.bc_jset.specs.Entries.{IsMissing, IsThere, AreNumbered};
ghost use Rattle.bc_entries.specs.Lists.{IsAt, IsNewestAt, AreMissing, AreListedAt, AreUnlisted, EndsCount, picked};

use crate::error::JournalError;
use bc_jset::JEntry;
use bc_record::Placed;
use std::alloc::{AllocError, Global};
use std::collections::BTreeMap;

/// The place of the entry with each number. Where several have one, the first counts.
fn places_of(alloc: Global, all: &[Placed<JEntry>]) -> Result<BTreeMap<u64, usize>, AllocError>
    ensures { IfOk result (λ m. (number : ℕ) → IsAt all.now all.now number (get nat_cmp m number)) }
{
    let mut places = BTreeMap::new(alloc);
    let mut at = all.len();
    while at > 0 {
        at -= 1;
        places.insert(all[at].item.seq, at)?;
    }
    Ok(places)
}

/// The place of the newest entry.
fn newest_of(all: &[Placed<JEntry>]) -> usize
    requires { 0 < length all.now }
    ensures { IsNewestAt all.now all.now result }
{
    let mut at = all.len() - 1;
    let mut newest = at;
    while at > 0 {
        at -= 1;
        if all[newest].item.seq <= all[at].item.seq {
            newest = at;
        }
    }
    newest
}

/// The last number that is missing behind one that is.
fn last_missing(all: &[Placed<JEntry>], from: u64, newest: u64) -> u64
    requires missing { IsMissing all.now from }
    requires newest { IsThere all.now newest }
    requires behind { from < newest }
    ensures { AreMissing all.now from result }
{
    let mut next = newest;
    for entry in all {
        if from < entry.item.seq && entry.item.seq < next {
            next = entry.item.seq;
        }
    }
    next - 1
}

/// The places of the entries from the number `low` on up to `high`, which is there, or the first gap.
fn count_up(
    alloc: Global,
    all: &[Placed<JEntry>],
    places: &BTreeMap<u64, usize>,
    low: u64,
    high: u64,
) -> Result<Vec<usize>, JournalError>
    requires places { (number : ℕ) → IsAt all.now all.now number (get nat_cmp places.now number) }
    requires there { IsThere all.now high }
    requires order { low ≤ high }
    ensures places { IfOk result (λ v. All (λ place. place < length all.now) v.items) }
    ensures listed { IfOk result (λ v. AreNumbered all.now low (picked all.now v.items) high) }
    ensures gap { IfErr result (EndsCount all.now low) }
{
    let mut order = Vec::new(alloc);
    for number in low..high {
        match places.get(&number) {
            Some(place) => order.push(*place)?,
            None => {
                let to = last_missing(all, number, high);
                return Err(JournalError::Gap { from: number, to });
            }
        }
    }
    Ok(order)
}

/// The places of the entries that count, oldest first, and that of the newest.
pub fn list(alloc: Global, all: &[Placed<JEntry>]) -> Result<(Vec<usize>, usize), JournalError>
    ensures listed { IfOk result (λ r. AreListedAt all.now r.0.items r.1) }
    ensures places { IfOk result (λ r. All (λ place. place < length all.now) r.0.items) }
    ensures counts { IfOk result (λ r. Contains r.0.items r.1) }
    ensures unlisted { IfErr result (AreUnlisted all.now) }
{
    if all.is_empty() {
        return Err(JournalError::NoJournal);
    }
    let newest = newest_of(all);
    let high = all[newest].item.seq;
    let low = all[newest].item.last_seq;
    if high < low {
        return Err(JournalError::Gap {
            from: high,
            to: low,
        });
    }
    let places = places_of(alloc, all)?;
    let mut order = count_up(alloc, all, &places, low, high)?;
    order.push(newest)?;
    Ok((order, newest))
}
