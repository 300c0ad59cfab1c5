//! Whether keys lie in the range of an inner node, and cover it.
ghost use Rattle.std.specs.Prelude.{◌≡◌, ◌↔◌, ◌%◌, All, Any, IsTrue};
ghost use Rattle.std.specs.Bool.{MatchBool};
ghost use Rattle.bc_image.specs.Sound.{LiesWithin, CoverUpTo};
ghost use Rattle.bc_image.specs.Tree.{set_keys};
ghost use Rattle.bc_model.specs.Pieces.{piece_sectors};

use bc_key::Key;
use bc_set::Set;

/// Whether the key of a child lies in a range, as its end does.
fn lies_within(from: u64, end: u64, key: &Key) -> bool
    ensures { IsTrue result ↔ LiesWithin 1 from end key.now }
{
    from < key.end && key.end <= end
}

/// Whether each of the keys lies in a range.
fn are_within(from: u64, end: u64, keys: &[Key]) -> bool
    ensures { MatchBool result (All (LiesWithin 1 from end) keys.now)
        (Any (λ key. ¬ (LiesWithin 1 from end key)) keys.now) }
{
    for key in keys {
        if !lies_within(from, end, key) {
            return false;
        }
    }
    true
}

/// Whether each key of the sets lies in a range.
pub fn lie_within(from: u64, end: u64, sets: &[Set]) -> bool
    ensures { MatchBool result (All (LiesWithin 1 from end) (set_keys sets.now))
        (¬ (All (LiesWithin 1 from end) (set_keys sets.now))) }
{
    for set in sets {
        if !are_within(from, end, set.keys.as_slice()) {
            return false;
        }
    }
    true
}

/// Whether each of the children ends at a multiple of 256 sectors.
fn are_multiples(children: &[Key]) -> bool
    ensures { MatchBool result (All (λ c. c.end % piece_sectors ≡ 0) children.now)
        (Any (λ c. ¬ (c.end % piece_sectors ≡ 0)) children.now) }
{
    for child in children {
        if child.end % 256 != 0 {
            return false;
        }
    }
    true
}

/// Whether some child ends at a sector.
fn reaches(children: &[Key], end: u64) -> bool
    ensures { MatchBool result (Any (λ c. c.end ≡ end) children.now)
        (All (λ c. ¬ (c.end ≡ end)) children.now) }
{
    for child in children {
        if child.end == end {
            return true;
        }
    }
    false
}

/// Whether children cover a range up to its end.
pub fn cover_up_to(children: &[Key], end: u64) -> bool
    ensures { MatchBool result (CoverUpTo 1 children.now end) (¬ (CoverUpTo 1 children.now end)) }
{
    if !are_multiples(children) {
        return false;
    }
    reaches(children, end)
}
