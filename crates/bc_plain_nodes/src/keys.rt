//! Look-ups in a plain list of keys, and what they leave of each key.
ghost use Rattle.std.specs.Prelude.{◌≡◌, ◌≢◌, ◌⊎◌, ◌↔◌, ℕ, ◌-◌, ◌<◌, ◌≤◌, All, IfOk, IfSome, IsSomeAnd, IsTrue, MatchOption, None, Some};
ghost use Rattle.bc_extent.specs.Extents.{IsInOrder, IsPart, IsRest, Shows};
ghost use Rattle.bc_key.specs.Key.{Covers, IsExtent, start_of};
ghost use Rattle.bc_node.specs.Leaf.{AreWithin};
ghost use Rattle.bc_plain_nodes.specs.Look.{look_of};

use bc_key::{Key, cut_back, cut_front};
use bc_plain::extent::last_key;
use std::alloc::{AllocError, Global};

/// What a key without pointers is to a look-up.
#[derive(Clone, Copy, Debug, PartialEq, Eq, Drop)]
pub enum Bare {
    /// A key like any other.
    Counts,
    /// None; it hides those before it.
    Hides,
}

/// The last key of the list that covers the sector.
pub fn look(keys: &[Key], bare: Bare, sector: u64) -> Option<Key>
    ensures { result ≡ look_of bare keys.now sector }
{
    let last = last_key(keys, sector)?;
    match bare {
        Bare::Counts => Some(last),
        Bare::Hides if last.count > 0 => Some(last),
        Bare::Hides => None,
    }
}

/// Whether the look-up gives this key for the sector.
fn gives(keys: &[Key], bare: Bare, whole: &Key, sector: u64) -> bool
    ensures { IsTrue result ↔ (look_of bare keys.now sector ≡ Some whole.now) }
{
    match look(keys, bare, sector) {
        Some(key) => key == *whole,
        None => false,
    }
}

/// The first of the sectors up to one for all of which the look-up gives this key.
fn first_of(keys: &[Key], bare: Bare, whole: &Key, sector: u64) -> u64
    requires { look_of bare keys.now sector ≡ Some whole.now }
    ensures from { start_of whole.now ≤ result }
    ensures to { result ≤ sector }
    ensures all { (s : ℕ) → result ≤ s → s ≤ sector → look_of bare keys.now s ≡ Some whole.now }
    ensures before { (result ≡ start_of whole.now)
        ⊎ (look_of bare keys.now (result - 1) ≢ Some whole.now) }
{
    let mut first = sector;
    while first > whole.start() && gives(keys, bare, whole, first - 1) {
        first -= 1;
    }
    first
}

/// The sector behind the last of those from one on for all of which the look-up gives this key.
fn end_of(keys: &[Key], bare: Bare, whole: &Key, sector: u64) -> u64
    requires { look_of bare keys.now sector ≡ Some whole.now }
    ensures from { sector < result }
    ensures to { result ≤ whole.now.end }
    ensures all { (s : ℕ) → sector ≤ s → s < result → look_of bare keys.now s ≡ Some whole.now }
    ensures behind { look_of bare keys.now result ≢ Some whole.now }
{
    let mut end = sector + 1;
    while end < whole.end && gives(keys, bare, whole, end) {
        end += 1;
    }
    end
}

/// The key without the sectors before `from` and from `end` on.
fn part_of(whole: &Key, from: u64, end: u64) -> Key
    requires extent { IsExtent whole.now }
    requires from { start_of whole.now ≤ from }
    requires order { from < end }
    requires end { end ≤ whole.now.end }
    ensures part { IsPart whole.now result }
    ensures extent { IsExtent result }
    ensures from { start_of result ≡ from }
    ensures end { result.end ≡ end }
{
    let front = (from - whole.start()) as u16;
    let back = (whole.end - end) as u16;
    cut_front(&cut_back(whole, back), front)
}

/// The key that the look-up gives for the sector, cut to the sectors around it for which it gives
/// the same one.
pub fn rest(keys: &[Key], bare: Bare, sector: u64) -> Option<Key>
    requires { All IsExtent keys.now }
    ensures rest { MatchOption (look_of bare keys.now sector) (result ≡ None)
        (λ whole. IsSomeAnd result (IsRest (look_of bare keys.now) whole)) }
    ensures there { IfSome result (λ part. IsExtent part × Covers part sector) }
{
    let whole = look(keys, bare, sector)?;
    let first = first_of(keys, bare, &whole, sector);
    let end = end_of(keys, bare, &whole, sector);
    Some(part_of(&whole, first, end))
}

/// What the look-up leaves of the keys of a list, all of which lie in a range, in order.
pub fn parts(
    alloc: Global,
    keys: &[Key],
    bare: Bare,
    from: u64,
    end: u64,
) -> Result<Vec<Key>, AllocError>
    requires extents { All IsExtent keys.now }
    requires within { AreWithin from end keys.now }
    ensures order { IfOk result (λ parts. IsInOrder parts.items) }
    ensures shown { IfOk result (λ parts. Shows (look_of bare keys.now) parts.items) }
{
    let mut parts = Vec::new(alloc);
    let mut at = from;
    while at < end {
        match rest(keys, bare, at) {
            Some(part) => {
                at = part.end;
                parts.push(part)?;
            }
            None => at += 1,
        }
    }
    Ok(parts)
}
