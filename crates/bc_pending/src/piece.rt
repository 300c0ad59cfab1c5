//! The part of a key that lies in a leaf's range.
ghost use Rattle.std.specs.Prelude.{◌≡◌, ◌↔◌, ◌<◌, max, min, IsTrue, MatchOption};
ghost use Rattle.bc_extent.specs.Extents.{IsPart, IsRange};
ghost use Rattle.bc_key.specs.Key.{start_of};
ghost use Rattle.bc_pending.specs.Pieces.{HasSectors, IsPiece};

use crate::numbered::Numbered;
use bc_key::{Key, cut_back, cut_front};
use bc_spine::LeafRange;

/// Whether some sector of the key lies in the leaf's range.
fn has_sectors(leaf: &LeafRange, key: &Key) -> bool
    ensures { IsTrue result ↔ HasSectors leaf.now key.now }
{
    u64::from(key.size) <= key.end && leaf.from.max(key.start()) < leaf.end.min(key.end)
}

/// The key without its sectors below `from`.
fn part_from(key: &Key, from: u64) -> Key
    requires range { IsRange key.now }
    requires inside { from < key.now.end }
    ensures cut { IsPart key.now result }
    ensures range { IsRange result }
    ensures begins { start_of result ≡ max from (start_of key.now) }
    ensures ends { result.end ≡ key.now.end }
{
    if from <= key.start() {
        return *key;
    }
    cut_front(key, (from - key.start()) as u16)
}

/// The key without its sectors from `end` on.
fn part_to(key: &Key, end: u64) -> Key
    requires range { IsRange key.now }
    requires inside { start_of key.now < end }
    ensures cut { IsPart key.now result }
    ensures range { IsRange result }
    ensures begins { start_of result ≡ start_of key.now }
    ensures ends { result.end ≡ min end key.now.end }
{
    if key.end <= end {
        return *key;
    }
    cut_back(key, (key.end - end) as u16)
}

/// The key as far as it lies in the leaf's range.
fn part(leaf: &LeafRange, key: &Key) -> Key
    requires { HasSectors leaf.now key.now }
    ensures cut { IsPart key.now result }
    ensures range { IsRange result }
    ensures begins { start_of result ≡ max leaf.now.from (start_of key.now) }
    ensures ends { result.end ≡ min leaf.now.end key.now.end }
{
    part_to(&part_from(key, leaf.from), leaf.end)
}

/// The part of a key that lies in a leaf's range, where there is one.
pub fn piece_of(leaf: &LeafRange, key: &Numbered) -> Option<Numbered>
    ensures { MatchOption result (¬ (HasSectors leaf.now key.now.key)) (IsPiece leaf.now key.now) }
{
    if !has_sectors(leaf, &key.key) {
        return None;
    }
    Some(Numbered {
        key: part(leaf, &key.key),
        entry: key.entry,
    })
}
