//! Places in a list of keys in order, each found in a number of steps that is logarithmic in their
//! number.

ghost use Rattle.std.specs.Prelude.{◌≡◌, ◌<◌, ◌≤◌, length, slice_index_or, Contains, IfSome, IfNone};
ghost use Rattle.std.specs.List.{AllWithin};
ghost use Rattle.bc_key.specs.Key.{start_of};
ghost use Rattle.bc_extent.specs.LastKey.{last_key};
ghost use Rattle.bc_extent.specs.Extents.{IsInOrder};

use bc_key::Key;

/// How many keys end at the sector or before it. They are the first ones.
pub fn count_ended(keys: &[Key], sector: u64) -> usize
    requires { IsInOrder keys.now }
    ensures within { result ≤ length keys.now }
    ensures ended { AllWithin (λ key. key.end ≤ sector) keys.now 0 result }
    ensures later { AllWithin (λ key. sector < key.end) keys.now result (length keys.now) }
{
    keys.partition_point(|key| key.end <= sector)
}

/// How many keys begin before the sector. They are the first ones.
pub fn count_begun(keys: &[Key], sector: u64) -> usize
    requires { IsInOrder keys.now }
    ensures within { result ≤ length keys.now }
    ensures begun { AllWithin (λ key. start_of key < sector) keys.now 0 result }
    ensures later { AllWithin (λ key. sector ≤ start_of key) keys.now result (length keys.now) }
{
    keys.partition_point(|key| key.start() < sector)
}

/// The key that covers the sector.
pub fn key_at(keys: &[Key], sector: u64) -> Option<Key>
    requires { IsInOrder keys.now }
    ensures { result ≡ last_key keys.now sector }
{
    let place = count_ended(keys, sector);
    if place < keys.len() && keys[place].start() <= sector {
        Some(keys[place])
    } else {
        None
    }
}

/// Where this key stands in the list.
pub fn place_of(keys: &[Key], key: &Key) -> Option<usize>
    requires { IsInOrder keys.now }
    ensures found { IfSome result (λ i. (i < length keys.now)
        × (slice_index_or keys.now i key.now ≡ key.now)) }
    ensures none { IfNone result (¬ (Contains keys.now key.now)) }
{
    let place = count_ended(keys, key.start());
    if place < keys.len() && keys[place] == *key {
        Some(place)
    } else {
        None
    }
}
