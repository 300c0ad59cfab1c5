//! Keys of the journal for a leaf.
ghost use Rattle.std.specs.Prelude.{◌≡◌, ◌+◌, ◌<◌, ◌≤◌, ◌^◌, [], ◌∷◌, All, length, OnErr, OnOk};
ghost use Rattle.bc_reload.specs.Added.{FitsLeaf, HasAdded, IsUnchanged};

use bc_node::Leaf;
use bc_pending::Numbered;
use std::alloc::AllocError;

/// Adds a key, which its entry holds.
fn add_key(leaf: &mut Leaf, key: &Numbered)
    requires spare { 1 ≤ leaf.old.spare }
    requires fits { FitsLeaf leaf.old key.now }
    ensures added { HasAdded (key.now ∷ []) leaf.old leaf.new }
    ensures spare { leaf.old.spare ≤ leaf.new.spare + 1 }
{
    leaf.add(&[key.key], key.entry);
}

/// Adds keys that have room.
fn add_all(leaf: &mut Leaf, keys: &[Numbered])
    requires spare { length keys.now ≤ leaf.old.spare }
    requires fit { All (FitsLeaf leaf.old) keys.now }
    ensures { HasAdded keys.now leaf.old leaf.new }
{
    for key in keys {
        add_key(leaf, key);
    }
}

/// Adds keys of the leaf's range, each newer than those before it, with the entries that hold them.
/// They wait for the next set. Where no memory is found, nothing has changed.
pub fn add_keys(leaf: &mut Leaf, keys: &[Numbered]) -> Result<(), AllocError>
    requires { All (FitsLeaf leaf.old) keys.now }
    ensures ok { OnOk result (HasAdded keys.now leaf.old leaf.new) }
    ensures err { OnErr result (IsUnchanged leaf.old leaf.new) }
{
    if keys.len() > u32::MAX as usize {
        return Err(AllocError);
    }
    leaf.reserve(keys.len() as u32)?;
    add_all(leaf, keys);
    Ok(())
}
