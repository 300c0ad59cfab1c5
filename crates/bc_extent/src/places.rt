//! Places in a row of keys in order.

ghost use Rattle.std.specs.Prelude.{◌≡◌, ◌-◌, ◌<◌, ◌≤◌, [], length, slice_index_or, All, Contains, IfSome, IfNone};
ghost use Rattle.std.specs.List.{AllWithin};
ghost use Rattle.bc_key.specs.declared.key.Key.{Key};
ghost use Rattle.bc_key.specs.Key.{start_of};
ghost use Rattle.bc_extent.specs.LastKey.{last_key};
ghost use Rattle.bc_extent.specs.Extents.{IsInOrder};

use crate::rows::Rows;
use bc_key::Key;

/// Where the last key ends, which none of the others ends behind; 0 where there is no key.
pub fn last_end(rows: &Rows) -> u64
    requires { IsInOrder rows.now.keys }
    ensures none { rows.now.keys ≡ [] → result ≡ 0 }
    ensures last { 0 < length rows.now.keys → (d : Key)
        → result ≡ (slice_index_or rows.now.keys (length rows.now.keys - 1) d).end }
    ensures all { All (λ key. key.end ≤ result) rows.now.keys }
{
    let count = rows.len();
    if count == 0 { 0 } else { rows.end(count - 1) }
}

/// How many keys end at the sector or before it. They are the first ones. It takes a number of steps
/// that is logarithmic in the number of keys, and one where these are all of them.
pub fn count_ended(rows: &Rows, sector: u64) -> usize
    requires { IsInOrder rows.now.keys }
    ensures within { result ≤ length rows.now.keys }
    ensures ended { AllWithin (λ key. key.end ≤ sector) rows.now.keys 0 result }
    ensures later { AllWithin (λ key. sector < key.end) rows.now.keys result (length rows.now.keys) }
{
    let mut low = 0;
    let mut high = rows.len();
    if high > 0 && rows.end(high - 1) <= sector {
        return high;
    }
    while low < high {
        let middle = low + (high - low) / 2;
        if rows.end(middle) <= sector {
            low = middle + 1;
        } else {
            high = middle;
        }
    }
    low
}

/// How many keys begin before the sector, where those up to `from` do. They are the first ones. It
/// takes a step for each of them from there on.
pub fn count_begun(rows: &Rows, from: usize, sector: u64) -> usize
    requires order { IsInOrder rows.now.keys }
    requires within { from ≤ length rows.now.keys }
    requires begun { AllWithin (λ key. start_of key < sector) rows.now.keys 0 from }
    ensures from { from ≤ result }
    ensures within { result ≤ length rows.now.keys }
    ensures begun { AllWithin (λ key. start_of key < sector) rows.now.keys 0 result }
    ensures later { AllWithin (λ key. sector ≤ start_of key) rows.now.keys result (length rows.now.keys) }
{
    let count = rows.len();
    let mut place = from;
    while place < count && rows.start(place) < sector {
        place += 1;
    }
    place
}

/// The key that covers the sector.
pub fn key_at(rows: &Rows, sector: u64) -> Option<Key>
    requires { IsInOrder rows.now.keys }
    ensures { result ≡ last_key rows.now.keys sector }
{
    let place = count_ended(rows, sector);
    if place < rows.len() && rows.start(place) <= sector {
        Some(rows.key(place))
    } else {
        None
    }
}

/// Where this key stands in the row.
pub fn place_of(rows: &Rows, key: &Key) -> Option<usize>
    requires { IsInOrder rows.now.keys }
    ensures found { IfSome result (λ i. (i < length rows.now.keys)
        × (slice_index_or rows.now.keys i key.now ≡ key.now)) }
    ensures none { IfNone result (¬ (Contains rows.now.keys key.now)) }
{
    let place = count_ended(rows, key.start());
    if place < rows.len() && rows.key(place) == *key {
        Some(place)
    } else {
        None
    }
}
