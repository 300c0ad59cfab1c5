//! The keys of a write of a line, which name the places of its values.
ghost use Rattle.std.specs.Prelude.{◌≡◌, ◌+◌, ◌<◌, ◌≤◌, ◌^◌, All, IfOk};
ghost use Rattle.bc_key.specs.Key.{IsExtent};
ghost use Rattle.bc_node.specs.Leaf.{AreWithin};
ghost use Rattle.bc_place.specs.Named.{AreKeysFor, sectors_of};

use bc_fill::Placed;
use bc_key::Key;
use bc_keys::Keys;
use std::alloc::{AllocError, Global};

/// A dirty key for each of these places, one behind the other for the sectors from `first` on.
pub fn keys_for(alloc: Global, first: u64, places: &[Placed]) -> Result<Keys, AllocError>
    requires few { All (λ p. p.count ≤ 32768) places.now }
    requires range { first + sectors_of places.now < 2 ^ 64 }
    ensures keys { IfOk result (λ keys. AreKeysFor first places.now keys) }
    ensures within { IfOk result
        (λ keys. AreWithin first (first + sectors_of places.now) keys) }
    ensures extents { IfOk result (λ keys. All IsExtent keys) }
{
    let mut keys = Vec::with_capacity(alloc, places.len())?;
    let mut next = first;
    for place in places {
        let end = next + u64::from(place.count);
        keys.push(Key::new(end, place.count as u16, true, Some(place.ptr)))?;
        next = end;
    }
    Ok(Keys::from_vec(keys))
}
