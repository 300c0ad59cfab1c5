//! Lists of extents.
ghost use Rattle.std.specs.Prelude.{All, Any};
ghost use Rattle.std.specs.Bool.{MatchBool};
ghost use Rattle.bc_key.specs.Key.{IsExtent};
ghost use Rattle.bc_keys.specs.Spelling.{HasSizeOverEnd};

use bc_key::{Key, check_extent};

/// Whether each key is an extent: of none the size is above the end.
pub fn are_extents(keys: &[Key]) -> bool
    ensures { MatchBool result (All IsExtent keys.now) (Any HasSizeOverEnd keys.now) }
{
    for key in keys {
        if check_extent(key).is_err() {
            return false;
        }
    }
    true
}
