//! Numbers of leaves.
ghost use Rattle.std.specs.Prelude.{◌≡◌, ◌↔◌, ℕ, ◌+◌, ◌%◌, ◌<◌, ◌≤◌, ◌^◌, false, true, length, slice_index_or, All, IfOk};
ghost use Rattle.bc_spine.specs.Numbers.{HasNumber, IsLeastAlike, IsLeastFree};

use crate::leaf::LeafRange;
use std::alloc::{AllocError, Global};

/// A number that none of the leaves has a greater one than, and that is `from` at least.
fn greatest(leaves: &[LeafRange], from: u32) -> u32
    ensures from { from ≤ result }
    ensures all { All (λ leaf. leaf.number ≤ result) leaves.now }
{
    let mut most = from;
    for leaf in leaves {
        most = most.max(leaf.number);
    }
    most
}

/// Sets the flag of each leaf's number.
fn flag(leaves: &[LeafRange], flags: &mut [bool])
    requires { (k : ℕ) → slice_index_or flags.old k false ≡ false }
    ensures { (k : ℕ) → k < length flags.new
        → (slice_index_or flags.new k false ≡ true) ↔ HasNumber leaves.now k }
{
    for leaf in leaves {
        let number = leaf.number as usize;
        if number < flags.len() {
            flags[number] = true;
        }
    }
}

/// The place of the first flag from `from` on that isn't set; the number of flags where all are.
fn first_unset(flags: &[bool], from: usize) -> usize
    requires { from ≤ length flags.now }
    ensures from { from ≤ result }
    ensures within { result ≤ length flags.now }
    ensures unset { result < length flags.now → slice_index_or flags.now result false ≡ false }
    ensures set { (k : ℕ) → from ≤ k → k < result → slice_index_or flags.now k false ≡ true }
{
    let mut number = from;
    while number < flags.len() && flags[number] {
        number += 1;
    }
    number
}

/// The place of the first flag that isn't set, of those whose places leave this rest by so many
/// parts; a place behind the flags where all of them are.
fn alike_unset(flags: &[bool], parts: usize, rest: usize) -> usize
    requires rest { rest < parts }
    requires few { length flags.now + parts < 2 ^ 63 }
    ensures alike { result % parts ≡ rest }
    ensures unset { result < length flags.now → slice_index_or flags.now result false ≡ false }
    ensures set { (k : ℕ) → k % parts ≡ rest → k < result → slice_index_or flags.now k false ≡ true }
{
    let mut number = rest;
    while number < flags.len() && flags[number] {
        number += parts;
    }
    number
}

/// The least number that leaves this rest by so many parts and that none of the leaves has, by flags
/// for all of theirs and one more.
fn first_alike(leaves: &[LeafRange], flags: &mut [bool], most: u32, parts: u32, rest: u32) -> usize
    requires unset { (k : ℕ) → slice_index_or flags.old k false ≡ false }
    requires long { length flags.old ≡ most + 2 }
    requires all { All (λ leaf. leaf.number ≤ most) leaves.now }
    requires rest { rest < parts }
    ensures { IsLeastAlike leaves.now parts rest result }
{
    flag(leaves, flags);
    alike_unset(flags, parts as usize, rest as usize)
}

/// The least number from `from` on that none of the leaves has, by flags for all of theirs and one
/// more.
fn first_free(leaves: &[LeafRange], flags: &mut [bool], most: u32, from: u32) -> usize
    requires unset { (k : ℕ) → slice_index_or flags.old k false ≡ false }
    requires long { length flags.old ≡ most + 2 }
    requires all { All (λ leaf. leaf.number ≤ most) leaves.now }
    requires from { from ≤ most }
    ensures { IsLeastFree leaves.now from result }
{
    flag(leaves, flags);
    first_unset(flags, from as usize)
}

/// The least number from `from` on that none of the leaves has. There is none where numbers of 32
/// bits are used up, which is for want of memory long before.
pub fn least_free(alloc: Global, leaves: &[LeafRange], from: u32) -> Result<u32, AllocError>
    ensures { IfOk result (IsLeastFree leaves.now from) }
{
    let most = greatest(leaves, from);
    let mut flags = vec![in alloc; false; most as usize + 2]?;
    let number = first_free(leaves, &mut flags, most, from);
    if number > u32::MAX as usize {
        return Err(AllocError);
    }
    Ok(number as u32)
}

/// The least number that leaves this rest by so many parts and that none of the leaves has. There is
/// none where numbers of 32 bits are used up, which is for want of memory long before.
pub fn least_alike(
    alloc: Global,
    leaves: &[LeafRange],
    parts: u32,
    rest: u32,
) -> Result<u32, AllocError>
    requires { rest < parts }
    ensures { IfOk result (IsLeastAlike leaves.now parts rest) }
{
    let most = greatest(leaves, rest);
    let mut flags = vec![in alloc; false; most as usize + 2]?;
    let number = first_alike(leaves, &mut flags, most, parts, rest);
    if number > u32::MAX as usize {
        return Err(AllocError);
    }
    Ok(number as u32)
}
