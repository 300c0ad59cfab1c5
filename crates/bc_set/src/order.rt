//! What the keys of a set have to be.
ghost use Rattle.std.specs.Prelude.{◌↔◌, IsTrue, Any};
ghost use Rattle.std.specs.Bool.{MatchBool};
ghost use Rattle.bc_set.specs.SetBytes.{Follows, IsRefusedAs, AreOfKind, AreInOrder};

use crate::set::SetKind;
use bc_key::Key;
use bc_keys::are_extents;

/// Whether a set of this kind may hold the keys, whatever their order.
pub fn are_of_kind(kind: SetKind, keys: &[Key]) -> bool
    ensures { MatchBool result (AreOfKind kind keys.now) (Any (IsRefusedAs kind) keys.now) }
{
    match kind {
        SetKind::Extents => are_extents(keys),
        SetKind::Children => true,
    }
}

/// Whether the second key may follow the first one.
fn follows(kind: SetKind, before: &Key, key: &Key) -> bool
    ensures { IsTrue result ↔ Follows kind before.now key.now }
{
    match kind {
        SetKind::Extents => before.end <= key.start(),
        SetKind::Children => before.end < key.end,
    }
}

/// Whether each key follows those before it.
pub fn are_in_order(kind: SetKind, keys: &[Key]) -> bool
    ensures { IsTrue result ↔ AreInOrder kind keys.now }
{
    for i in 1..keys.len() {
        if !follows(kind, &keys[i - 1], &keys[i]) {
            return false;
        }
    }
    true
}
