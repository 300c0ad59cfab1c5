//! A part of a row that gives way to other keys, one after another, within the memory that there is.

ghost use Rattle.std.specs.Prelude.{◌≡◌, ◌+◌, ◌-◌, ◌<◌, ◌≤◌, ◌++◌, length, take, drop, option_to_list};
ghost use Rattle.bc_extent.specs.Extents.{room_of};

use crate::rows::Rows;
use crate::slot::Slot;
use bc_key::Key;

/// The keys from `from` on up to `to`, which are to go.
#[derive(Clone, Copy, Drop)]
pub struct Gap {
    pub from: usize,
    pub to: usize,
    pub ghost ordered: { from ≤ to },
}

/// Puts a key before the gap, in the place of one of the gap's where there is one.
fn put(rows: &mut Rows, gap: Gap, slot: Slot) -> Gap
    requires within { gap.to ≤ length rows.old.keys }
    requires room { 1 ≤ rows.old.spare + (gap.to - gap.from) }
    ensures from { result.from ≡ gap.from + 1 }
    ensures within { result.to ≤ length rows.new.keys }
    ensures before { take result.from rows.new.keys ≡ take gap.from rows.old.keys ++ option_to_list (Some slot) }
    ensures behind { drop result.to rows.new.keys ≡ drop gap.to rows.old.keys }
    ensures room { rows.new.spare + (result.to - result.from) + 1
        ≡ rows.old.spare + (gap.to - gap.from) }
    ensures all { room_of rows.new ≡ room_of rows.old }
{
    // So that a place is a number of 64 bits.
    let _ = rows.len();
    let Gap { from, to } = gap;
    if from < to {
        let _ = rows.swap_in(from, slot);
        return Gap { from: from + 1, to };
    }
    rows.insert(from, slot);
    Gap {
        from: from + 1,
        to: to + 1,
    }
}

/// Puts a key before the gap, if there is one.
pub fn fill(rows: &mut Rows, gap: Gap, key: &Option<Key>) -> Gap
    requires within { gap.to ≤ length rows.old.keys }
    requires room { length (option_to_list key.now) ≤ rows.old.spare + (gap.to - gap.from) }
    ensures within { result.to ≤ length rows.new.keys }
    ensures before { take result.from rows.new.keys
        ≡ take gap.from rows.old.keys ++ option_to_list key.now }
    ensures behind { drop result.to rows.new.keys ≡ drop gap.to rows.old.keys }
    ensures room { rows.new.spare + (result.to - result.from) + length (option_to_list key.now)
        ≡ rows.old.spare + (gap.to - gap.from) }
    ensures all { room_of rows.new ≡ room_of rows.old }
{
    match key {
        None => gap,
        Some(key) => put(rows, gap, Slot::new(key)),
    }
}

/// Removes the gap's keys.
pub fn close(rows: &mut Rows, gap: Gap)
    requires { gap.to ≤ length rows.old.keys }
    ensures keys { rows.new.keys ≡ take gap.from rows.old.keys ++ drop gap.to rows.old.keys }
    ensures spare { rows.new.spare ≡ rows.old.spare + (gap.to - gap.from) }
    ensures all { room_of rows.new ≡ room_of rows.old }
{
    for _ in gap.from..gap.to {
        rows.remove(gap.from);
    }
}
