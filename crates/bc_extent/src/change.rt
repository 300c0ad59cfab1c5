//! A range of sectors that gets another key, or none.

ghost use Rattle.std.specs.Prelude.{◌≡◌, ◌+◌, ◌-◌, ◌<◌, ◌≤◌, ◌++◌, [], ◌∷◌, length, take, drop, option_to_list, IfSome};
ghost use Rattle.bc_key.specs.Key.{start_of};
ghost use Rattle.bc_extent.specs.LastKey.{last_key};
ghost use Rattle.bc_extent.specs.Extents.{IsRange, IsInOrder, Shows, overlaid, room_of};

use crate::gap::{Gap, close, fill};
use crate::rows::Rows;
use crate::sides::{side_above, side_below};
use crate::slot::Slot;
use bc_key::Key;

/// Puts a key behind all others. Takes no memory.
pub fn put_last(rows: &mut Rows, key: &Key)
    requires { 1 ≤ rows.old.spare }
    ensures keys { rows.new.keys ≡ rows.old.keys ++ key.now ∷ [] }
    ensures spare { rows.new.spare + 1 ≡ rows.old.spare }
{
    let last = rows.len();
    rows.insert(last, Slot::new(key));
}

/// Gives the sectors from `first` on up to `end` this key, or none where there is no key. Takes no
/// memory.
pub fn overlay(rows: &mut Rows, first: u64, end: u64, key: &Option<Key>)
    requires some { first < end }
    requires order { IsInOrder rows.old.keys }
    requires key { IfSome key.now (λ k. IsRange k × (start_of k ≡ first) × (k.end ≡ end)) }
    requires room { 1 + length (option_to_list key.now) ≤ rows.old.spare }
    ensures shows { Shows (overlaid first end key.now (last_key rows.old.keys)) rows.new.keys }
    ensures order { IsInOrder rows.new.keys }
    ensures room { rows.old.spare ≤ rows.new.spare + 1 + length (option_to_list key.now) }
    ensures all { room_of rows.new ≡ room_of rows.old }
{
    let left = side_below(rows, first);
    let right = side_above(rows, left.place, end);
    let gap = Gap {
        from: left.place,
        to: right.place,
    };
    let gap = fill(rows, gap, &left.part);
    let gap = fill(rows, gap, key);
    let gap = fill(rows, gap, &right.part);
    close(rows, gap);
}
