//! The keys on one side of a sector.

ghost use Rattle.std.specs.Prelude.{◌≡◌, ◌<◌, ◌≤◌, ◌-◌, ◌++◌, length, take, drop, option_to_list, IfSome};
ghost use Rattle.std.specs.List.{AllWithin};
ghost use Rattle.bc_key.specs.Key.{start_of};
ghost use Rattle.bc_extent.specs.Extents.{IsRange, IsInOrder, IsPart};
ghost use Rattle.bc_extent.specs.Sides.{IsBelow, IsAbove, HoldsWithin};

use crate::vector::places::{count_begun, count_ended};
use bc_key::{Key, cut_back, cut_front};

/// What lies on one side of a sector: all of the keys up to a place, or from it on, and a part of
/// the key that the sector cuts.
#[derive(Clone, Copy, Drop)]
pub struct Side {
    /// Where the keys that stay whole end, or begin.
    pub place: usize,
    /// What is left of the key between them and the sector.
    pub part: Option<Key>,
}

/// The key as far as it lies below a sector that cuts it.
fn part_below(key: &Key, sector: u64) -> Key
    requires range { IsRange key.now }
    requires from { start_of key.now < sector }
    requires to { sector < key.now.end }
    ensures part { IsPart key.now result }
    ensures range { IsRange result }
    ensures from { start_of result ≡ start_of key.now }
    ensures to { result.end ≡ sector }
{
    cut_back(key, (key.end - sector) as u16)
}

/// The key as far as it lies from a sector on that cuts it.
fn part_above(key: &Key, sector: u64) -> Key
    requires range { IsRange key.now }
    requires from { start_of key.now < sector }
    requires to { sector < key.now.end }
    ensures part { IsPart key.now result }
    ensures range { IsRange result }
    ensures from { start_of result ≡ sector }
    ensures to { result.end ≡ key.now.end }
{
    cut_front(key, (sector - key.start()) as u16)
}

/// What lies below the sector.
pub fn side_below(keys: &[Key], sector: u64) -> Side
    requires { IsInOrder keys.now }
    ensures place { result.place ≤ length keys.now }
    ensures below { IsBelow sector keys.now (take result.place keys.now ++ option_to_list result.part) }
    ensures ended { AllWithin (λ key. key.end ≤ sector) keys.now 0 result.place }
    ensures cut { IfSome result.part (λ _. HoldsWithin (λ key. start_of key < sector) keys.now result.place) }
{
    let place = count_ended(keys, sector);
    let mut part = None;
    if place < keys.len() && keys[place].start() < sector {
        part = Some(part_below(&keys[place], sector));
    }
    Side { place, part }
}

/// What lies from the sector on.
pub fn side_above(keys: &[Key], sector: u64) -> Side
    requires { IsInOrder keys.now }
    ensures place { result.place ≤ length keys.now }
    ensures above { IsAbove sector keys.now (option_to_list result.part ++ drop result.place keys.now) }
    ensures later { AllWithin (λ key. sector ≤ start_of key) keys.now result.place (length keys.now) }
    ensures cut { IfSome result.part (λ _. (0 < result.place)
        × HoldsWithin (λ key. sector < key.end) keys.now (result.place - 1)) }
{
    let place = count_begun(keys, sector);
    let mut part = None;
    if place > 0 && keys[place - 1].end > sector {
        part = Some(part_above(&keys[place - 1], sector));
    }
    Side { place, part }
}
