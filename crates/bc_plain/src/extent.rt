//! Look-ups in a plain list of keys.

ghost use Rattle.std.specs.Prelude.{◌≡◌};
ghost use Rattle.bc_extent.specs.LastKey as extent;

use bc_key::Key;

/// The last key of the list whose range covers the sector.
pub fn last_key(keys: &[Key], sector: u64) -> Option<Key>
    ensures { result ≡ extent.last_key keys.now sector }
{
    let mut last = None;
    for key in keys {
        if key.covers(sector) {
            last = Some(*key);
        }
    }
    last
}
