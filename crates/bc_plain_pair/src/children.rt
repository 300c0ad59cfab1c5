//! The children of an inner node.
ghost use Rattle.std.specs.Prelude.{◌≡◌, ◌++◌, IfOk};
ghost use Rattle.bc_image.specs.Children.{child_before, with_child, with_children, children_of};

use bc_key::Key;
use std::alloc::{AllocError, Global};

// Adds the child and those behind it; a key without pointers only takes one away.
fn add_before(key: &Key, children: &[Key], into: &mut Vec<Key>) -> Result<(), AllocError>
    ensures { IfOk result (λ _. into.new.items ≡ into.old.items ++ child_before key.now children.now) }
{
    if key.count > 0 {
        into.push(*key)?;
    }
    into.extend_from_slice(children)?;
    Ok(())
}

// Adds the children with one more, which takes the place of the one with its end.
fn add_child(key: &Key, children: &[Key], into: &mut Vec<Key>) -> Result<(), AllocError>
    ensures { IfOk result (λ _. into.new.items ≡ into.old.items ++ with_child key.now children.now) }
{
    let Some(child) = children.first() else {
        return add_before(key, &[], into);
    };
    if key.end < child.end {
        return add_before(key, children, into);
    }
    let rest = &children[1..];
    if key.end == child.end {
        return add_before(key, rest, into);
    }
    into.push(*child)?;
    add_child(key, rest, into)
}

/// The children that the keys of an inner node's sets come to, by their ends.
pub fn children_of(alloc: Global, keys: &[Key]) -> Result<Vec<Key>, AllocError>
    ensures { IfOk result (λ v. v.items ≡ children_of keys.now) }
{
    let mut children = Vec::new(alloc);
    for key in keys {
        let mut more = Vec::new(alloc);
        add_child(key, &children, &mut more)?;
        children = more;
    }
    Ok(children)
}
