//! Children in the order of their ends.
ghost use Rattle.std.specs.Prelude.{◌≡◌, ◌+◌, ◌<◌, ◌≤◌, length, AllPairs, OnOk, OnErr, IfOk, vec_len, vec_capacity};
ghost use Rattle.std.specs.List.{AllWithin};
ghost use Rattle.bc_image.specs.Children.{with_child, with_children, children_of};
ghost use Rattle.bc_image.specs.Tree.{set_keys};

use bc_key::Key;
use bc_set::Set;
use std::alloc::{AllocError, Global};

/// How many children end before a sector. They are the first ones. It takes a number of steps that
/// is logarithmic in the number of children.
pub fn count_before(children: &[Key], end: u64) -> usize
    requires { AllPairs (λ a b. a.end < b.end) children.now }
    ensures within { result ≤ length children.now }
    ensures before { AllWithin (λ c. c.end < end) children.now 0 result }
    ensures behind { AllWithin (λ c. end ≤ c.end) children.now result (length children.now) }
{
    let mut low = 0;
    let mut high = children.len();
    while low < high {
        let middle = low + (high - low) / 2;
        if children[middle].end < end {
            low = middle + 1;
        } else {
            high = middle;
        }
    }
    low
}

/// Puts a child in the place of the one with its end, or among the others. A key without pointers
/// takes the one with its end away.
pub fn put_child(children: &mut Vec<Key>, key: &Key) -> Result<(), AllocError>
    requires { AllPairs (λ a b. a.end < b.end) children.old.items }
    ensures ok { OnOk result (children.new.items ≡ with_child key.now children.old.items) }
    ensures err { OnErr result (children.new.items ≡ children.old.items) }
    ensures full { OnErr result (vec_capacity children.old ≤ vec_len children.old) }
    ensures room { vec_capacity children.old ≤ vec_capacity children.new }
    ensures one { vec_len children.new ≤ vec_len children.old + 1 }
{
    let place = count_before(children.as_slice(), key.end);
    if place < children.len() && children[place].end == key.end {
        if key.count > 0 {
            children[place] = *key;
        } else {
            children.remove(place);
        }
    } else if key.count > 0 {
        children.insert(place, *key)?;
    }
    Ok(())
}

/// Puts children in one after another, and takes memory for them.
pub fn put_children(children: &mut Vec<Key>, keys: &[Key]) -> Result<(), AllocError>
    requires { AllPairs (λ a b. a.end < b.end) children.old.items }
    ensures order { AllPairs (λ a b. a.end < b.end) children.new.items }
    ensures ok { OnOk result (children.new.items ≡ with_children keys.now children.old.items) }
{
    for key in keys {
        put_child(children, key)?;
    }
    Ok(())
}

/// The children that sets have, one behind the other.
pub fn children_in(alloc: Global, sets: &[Set]) -> Result<Vec<Key>, AllocError>
    ensures { IfOk result (λ children. children.items ≡ children_of (set_keys sets.now)) }
{
    let mut children = Vec::new(alloc);
    for set in sets {
        put_children(&mut children, set.keys.as_slice())?;
    }
    Ok(children)
}

/// Puts children in one after another, where there is room for them. Takes no memory.
pub fn put_within(children: &mut Vec<Key>, keys: &[Key])
    requires order { AllPairs (λ a b. a.end < b.end) children.old.items }
    requires room { vec_len children.old + length keys.now ≤ vec_capacity children.old }
    ensures is { children.new.items ≡ with_children keys.now children.old.items }
    ensures room { vec_capacity children.old ≤ vec_capacity children.new }
    ensures few { vec_len children.new ≤ vec_len children.old + length keys.now }
{
    for key in keys {
        let _ = put_child(children, key);
    }
}
