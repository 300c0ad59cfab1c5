//! A key's pieces go to the leaves in whose ranges they lie.
ghost use Rattle.std.specs.Prelude.{◌≡◌, ◌<◌, ◌≤◌, length, IfOk};
ghost use Rattle.std.specs.List.{AllWithin};
ghost use Rattle.bc_pending.specs.Pieces.{AreGiven, AreInRow, IsGiven};

use crate::numbered::{Numbered, Pending};
use crate::piece::piece_of;
use bc_spine::LeafRange;
use std::alloc::AllocError;

/// How many leaves end at the sector or before it. They are the first ones. It takes a number of
/// steps that is logarithmic in the number of leaves.
fn count_ended(leaves: &[LeafRange], sector: u64) -> usize
    requires { AreInRow leaves.now }
    ensures within { result ≤ length leaves.now }
    ensures ended { AllWithin (λ leaf. leaf.end ≤ sector) leaves.now 0 result }
    ensures later { AllWithin (λ leaf. sector < leaf.end) leaves.now result (length leaves.now) }
{
    let mut low = 0;
    let mut high = leaves.len();
    while low < high {
        let middle = low + (high - low) / 2;
        if leaves[middle].end <= sector {
            low = middle + 1;
        } else {
            high = middle;
        }
    }
    low
}

/// Gives a leaf the piece of a key that lies in its range, if there is one.
fn give(list: &mut Pending, leaf: &LeafRange, key: &Numbered) -> Result<(), AllocError>
    ensures { IfOk result (λ _. IsGiven leaf.now key.now list.old list.new) }
{
    if let Some(piece) = piece_of(leaf, key) {
        list.push(piece)?;
    }
    Ok(())
}

/// Gives each leaf the piece of a key that lies in its range. It takes a step for each leaf that has
/// one.
pub fn give_all(
    lists: &mut [Pending],
    leaves: &[LeafRange],
    key: &Numbered,
) -> Result<(), AllocError>
    requires row { AreInRow leaves.now }
    requires each { length lists.old ≡ length leaves.now }
    ensures { IfOk result (λ _. AreGiven leaves.now key.now lists.old lists.new) }
{
    let mut i = count_ended(leaves, key.key.start());
    while i < leaves.len() && leaves[i].from < key.key.end {
        give(&mut lists[i], &leaves[i], key)?;
        i += 1;
    }
    Ok(())
}
