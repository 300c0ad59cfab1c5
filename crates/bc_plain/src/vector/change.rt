//! A range of sectors that gets another key, or none.

ghost use Rattle.std.specs.Prelude.{◌≡◌, ◌+◌, ◌-◌, ◌<◌, ◌≤◌, ◌++◌, length, take, drop, option_to_list, IfSome, vec_len, vec_capacity};
ghost use Rattle.bc_key.specs.Key.{start_of};
ghost use Rattle.bc_extent.specs.LastKey.{last_key};
ghost use Rattle.bc_extent.specs.Extents.{IsRange, IsInOrder, Shows, overlaid};

use crate::vector::parts::Parts;
use crate::vector::sides::{side_above, side_below};
use crate::vector::splice::replace_between;
use bc_key::Key;

/// Keys that come in the place of those from `from` on up to `to`.
#[derive(Drop)]
struct Change {
    from: usize,
    to: usize,
    parts: Parts,
}

/// How the keys change where the sectors from `first` on up to `end` get this key, or none.
fn change_for(keys: &[Key], first: u64, end: u64, key: Option<Key>) -> Change
    requires some { first < end }
    requires order { IsInOrder keys.now }
    requires key { IfSome key (λ k. IsRange k × (start_of k ≡ first) × (k.end ≡ end)) }
    ensures places { (result.from ≤ result.to) × (result.to ≤ length keys.now) }
    ensures few { length result.parts ≤ (result.to - result.from) + 1 + length (option_to_list key) }
    ensures shows { Shows (overlaid first end key (last_key keys.now))
        (take result.from keys.now ++ (result.parts ++ drop result.to keys.now)) }
    ensures order { IsInOrder (take result.from keys.now ++ (result.parts ++ drop result.to keys.now)) }
{
    let left = side_below(keys, first);
    let right = side_above(keys, end);
    let mut parts = Parts::new();
    parts.add(left.part);
    parts.add(key);
    parts.add(right.part);
    Change {
        from: left.place,
        to: right.place,
        parts,
    }
}

/// Gives the sectors from `first` on up to `end` this key, or none where there is no key. Takes no
/// memory.
pub fn overlay(keys: &mut Vec<Key>, first: u64, end: u64, key: Option<Key>)
    requires some { first < end }
    requires order { IsInOrder keys.old.items }
    requires key { IfSome key (λ k. IsRange k × (start_of k ≡ first) × (k.end ≡ end)) }
    requires room { vec_len keys.old + 1 + length (option_to_list key) ≤ vec_capacity keys.old }
    ensures shows { Shows (overlaid first end key (last_key keys.old.items)) keys.new.items }
    ensures order { IsInOrder keys.new.items }
    ensures longer { vec_len keys.new ≤ vec_len keys.old + 1 + length (option_to_list key) }
    ensures capacity { vec_capacity keys.new ≡ vec_capacity keys.old }
{
    let change = change_for(keys, first, end, key);
    replace_between(keys, change.from, change.to, change.parts.as_slice());
}
