//! The last keys of a leaf.
ghost use Rattle.std.specs.Prelude.{◌+◌, ◌*◌, ◌≤◌, ◌↔◌, [], length, ◌∷◌, All, Any, IfOk, IsTrue};
ghost use Rattle.std.specs.Bool.{MatchBool};
ghost use Rattle.bc_image.specs.Sound.{LiesWithin};
ghost use Rattle.bc_image.specs.Tree.{set_keys};
ghost use Rattle.bc_key.specs.Key.{IsExtent};
ghost use Rattle.bc_set.specs.declared.set.SetKind.{SetKind};
ghost use Rattle.bc_node.specs.Leaf.{ArePut};
ghost use Rattle.bc_node.specs.Sets.{AreProper};

use bc_extent::Extents;
use bc_key::Key;
use bc_set::Set;
use std::alloc::AllocError;

/// Whether the key lies in a range.
fn lies_within(from: u64, end: u64, key: &Key) -> bool
    ensures { IsTrue result ↔ LiesWithin 0 from end key.now }
{
    from <= key.start() && key.end <= end
}

/// Whether each of the keys lies in a range, as those that a leaf is given have to.
pub fn are_within(from: u64, end: u64, keys: &[Key]) -> bool
    ensures { MatchBool result (All (LiesWithin 0 from end) keys.now)
        (Any (λ key. ¬ (LiesWithin 0 from end key)) keys.now) }
{
    for key in keys {
        if !lies_within(from, end, key) {
            return false;
        }
    }
    true
}

/// Whether each key of the sets lies in a range.
pub fn lie_within(from: u64, end: u64, sets: &[Set]) -> bool
    ensures { MatchBool result (All (LiesWithin 0 from end) (set_keys sets.now))
        (¬ (All (LiesWithin 0 from end) (set_keys sets.now))) }
{
    for set in sets {
        if !are_within(from, end, set.keys.as_slice()) {
            return false;
        }
    }
    true
}

/// Puts a key behind those whose last ones there are. One without pointers takes out what it covers.
fn put(map: &mut Extents, key: &Key)
    requires spare { 2 ≤ map.old.spare }
    requires extent { IsExtent key.now }
    ensures put { ArePut (key.now ∷ []) map.old.keys map.new.keys }
    ensures spare { map.old.spare ≤ map.new.spare + 2 }
{
    if key.count > 0 {
        map.insert(key);
    } else {
        map.erase(key.start(), u32::from(key.size));
    }
}

/// Puts keys behind those whose last ones there are.
fn put_all(map: &mut Extents, keys: &[Key]) -> Result<(), AllocError>
    requires { All IsExtent keys.now }
    ensures { IfOk result (λ _. ArePut keys.now map.old.keys map.new.keys) }
{
    for key in keys {
        map.reserve(2)?;
        put(map, key);
    }
    Ok(())
}

/// Puts keys behind those whose last ones there are. Takes no memory.
pub fn put_within(map: &mut Extents, keys: &[Key])
    requires spare { 2 * length keys.now ≤ map.old.spare }
    requires extents { All IsExtent keys.now }
    ensures put { ArePut keys.now map.old.keys map.new.keys }
    ensures spare { map.old.spare ≤ map.new.spare + 2 * length keys.now }
{
    for key in keys {
        put(map, key);
    }
}

/// Puts the keys of sets behind those whose last ones there are.
pub fn put_sets(map: &mut Extents, sets: &[Set]) -> Result<(), AllocError>
    requires { AreProper SetKind.Extents sets.now }
    ensures { IfOk result (λ _. ArePut (set_keys sets.now) map.old.keys map.new.keys) }
{
    for set in sets {
        put_all(map, set.keys.as_slice())?;
    }
    Ok(())
}
