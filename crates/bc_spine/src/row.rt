//! Leaves in a row.
ghost use Rattle.std.specs.Prelude.{◌≡◌, ◌+◌, ◌-◌, ◌<◌, ◌≤◌, ◌++◌, ℕ, length, take, drop, vec_len, vec_capacity, slice_index_or};
ghost use Rattle.bc_spine.specs.declared.leaf.LeafRange.{LeafRange};
ghost use Rattle.bc_spine.specs.Leaves.{IsRow};

use crate::leaf::LeafRange;

/// The place of the leaf that a sector lies in. It takes a number of steps that is logarithmic in
/// the number of leaves.
pub fn place_of(row: &[LeafRange], sector: u64) -> usize
    requires row { (b : ℕ) × IsRow 0 row.now b × (sector < b) }
    ensures within { result < length row.now }
    ensures begins { (d : LeafRange) → (slice_index_or row.now result d).from ≤ sector }
    ensures ends { (d : LeafRange) → sector < (slice_index_or row.now result d).end }
{
    let mut low = 0;
    let mut high = row.len();
    while low < high {
        let middle = low + (high - low) / 2;
        if row[middle].end <= sector {
            low = middle + 1;
        } else {
            high = middle;
        }
    }
    low
}

/// Writes leaves over those from a place on.
fn overwrite(row: &mut Vec<LeafRange>, at: usize, come: &[LeafRange])
    requires { at + length come.now ≤ length row.old.items }
    ensures leaves { row.new.items
        ≡ take at row.old.items ++ come.now ++ drop (at + length come.now) row.old.items }
    ensures room { vec_capacity row.new ≡ vec_capacity row.old }
{
    for (i, leaf) in come.iter().enumerate() {
        row[at + i] = *leaf;
    }
}

/// Puts leaves before the one at a place. Takes no memory.
fn put_in(row: &mut Vec<LeafRange>, at: usize, come: &[LeafRange])
    requires within { at ≤ length row.old.items }
    requires room { length row.old.items + length come.now ≤ vec_capacity row.old }
    ensures leaves { row.new.items ≡ take at row.old.items ++ come.now ++ drop at row.old.items }
    ensures room { vec_capacity row.old ≤ vec_capacity row.new }
{
    for (i, leaf) in come.iter().enumerate() {
        let _ = row.insert(at + i, *leaf);
    }
}

/// Takes leaves from a place on out.
fn take_out(row: &mut Vec<LeafRange>, at: usize, count: usize)
    requires { at + count ≤ length row.old.items }
    ensures leaves { row.new.items ≡ take at row.old.items ++ drop (at + count) row.old.items }
    ensures room { vec_capacity row.new ≡ vec_capacity row.old }
{
    for _ in 0..count {
        let _ = row.remove(at);
    }
}

/// Puts leaves in the place of `gone` others from a place on. What lies behind moves only where
/// their number changes. Takes no memory.
pub fn replace(row: &mut Vec<LeafRange>, at: usize, gone: usize, come: &[LeafRange])
    requires within { at + gone ≤ length row.old.items }
    requires room { length row.old.items + length come.now ≤ vec_capacity row.old + gone }
    ensures leaves { row.new.items
        ≡ take at row.old.items ++ come.now ++ drop (at + gone) row.old.items }
    ensures room { vec_capacity row.old ≤ vec_capacity row.new }
{
    let kept = gone.min(come.len());
    overwrite(row, at, &come[..kept]);
    put_in(row, at + kept, &come[kept..]);
    take_out(row, at + come.len(), gone - kept);
}
