//! Children of an inner node.
ghost use Rattle.std.specs.Prelude.{◌≡◌, ◌+◌, ◌-◌, ◌*◌, ◌/◌, ◌<◌, ◌≤◌, length, IfOk, MatchOption};
ghost use Rattle.bc_image.specs.Children.{with_children};
ghost use Rattle.bc_set.specs.declared.set.SetKind.{SetKind};
ghost use Rattle.bc_set.specs.SetBytes.{AreSetKeys};
ghost use Rattle.bc_tree.specs.Children.{CanGiveWay, TakeAway, children_after};
ghost use Rattle.bc_tree.specs.Needs.{words};

use bc_key::Key;
use std::alloc::{AllocError, Global};

/// A key without pointers for each of the children, which takes that child away.
fn take_away(alloc: Global, children: &[Key]) -> Result<Vec<Key>, AllocError>
    ensures { IfOk result (λ keys. TakeAway children.now keys.items) }
{
    let mut keys = Vec::new(alloc);
    for child in children {
        keys.push(Key::new(child.end, 0, false, None))?;
    }
    Ok(keys)
}

/// The keys of a further set of an inner node that puts children in the place of `gone` others from
/// a place on. A reader puts each key of a later set in the place of the child with its end, and
/// one without pointers takes that child away: so the children that come are named, and those that
/// go where none comes that ends there.
pub fn set_keys(
    alloc: Global,
    children: &[Key],
    at: usize,
    gone: usize,
    come: &[Key],
) -> Result<Vec<Key>, AllocError>
    requires { CanGiveWay children.now at gone come.now }
    ensures put { IfOk result (λ keys. with_children keys.items children.now
        ≡ children_after children.now at gone come.now) }
    ensures proper { IfOk result (λ keys. AreSetKeys SetKind.Children keys.items) }
    ensures few { IfOk result (λ keys. length keys.items ≡ gone - 1 + length come.now) }
    ensures words { IfOk result (λ keys. words keys.items ≡ 2 * (gone - 1) + words come.now) }
{
    let mut keys = take_away(alloc, &children[at..at + gone - 1])?;
    keys.extend_from_slice(come)?;
    Ok(keys)
}

/// The children with others in the place of `gone` of them from a place on.
pub fn replaced(
    alloc: Global,
    children: &[Key],
    at: usize,
    gone: usize,
    come: &[Key],
) -> Result<Vec<Key>, AllocError>
    requires { at + gone ≤ length children.now }
    ensures { IfOk result (λ keys. keys.items ≡ children_after children.now at gone come.now) }
{
    let mut keys = Vec::from_slice(alloc, &children[..at])?;
    keys.extend_from_slice(come)?;
    keys.extend_from_slice(&children[at + gone..])?;
    Ok(keys)
}

/// How many of so many children go to the first of two new nodes. There is one new node alone where
/// they are `most` or fewer.
pub fn first_half(count: usize, most: usize) -> Option<usize>
    requires { count ≤ 2 * most }
    ensures { MatchOption result (count ≤ most) (λ first. (most < count)
        × (first ≡ count / 2) × (0 < first) × (first ≤ most) × (count ≤ first + most)) }
{
    if count <= most { None } else { Some(count / 2) }
}
