//! How far pointers lie behind their buckets.
//!
//! A generation has 8 bits, so a pointer that lies too far behind its bucket would look like a newer
//! one after some more uses of the bucket, and old data would be shown. And the data of a dirty key
//! is all that there is of it: its bucket may not have been used again at all.
ghost use Rattle.std.specs.Prelude.{MatchOption};
ghost use Rattle.std.specs.Bool.{MatchBool};
ghost use Rattle.bc_image.specs.Pair.{Pair};
ghost use Rattle.bc_image.specs.Sound.{IsWithinWindow};
ghost use Rattle.bc_replay.specs.Survey.{HasSurvey};
ghost use Rattle.bc_check.specs.Window.{IsAgedKey, IsFirstAged, IsLeastAged, NoneAged};

use bc_disk::gens::Gens;
use bc_disk::geometry::Geometry;
use bc_extent::Extents;
use bc_key::Key;
use bc_replay::{Survey, age_of};

/// How many generations a pointer may lie behind its bucket.
const WINDOW: u8 = 96;

/// Whether a key's pointer lies too far behind its bucket.
fn is_aged(g: &Geometry, gens: &Gens, key: &Key) -> bool
    ensures { MatchBool result (IsAgedKey g.now gens.now key.now)
        (¬ (IsAgedKey g.now gens.now key.now)) }
{
    let Some(ptr) = key.pointer() else {
        return false;
    };
    let age = age_of(g, gens, &ptr);
    if age > WINDOW {
        return true;
    }
    if !key.dirty {
        return false;
    }
    age != 0
}

/// The first sector of the first row whose pointer lies too far behind its bucket.
fn first_aged_row(g: &Geometry, gens: &Gens, index: &Extents) -> Option<u64>
    ensures { MatchOption result (NoneAged g.now gens.now index.now.keys)
        (IsFirstAged g.now gens.now index.now.keys) }
{
    for i in 0..index.len() {
        let row = index.key(i);
        if is_aged(g, gens, &row) {
            return Some(row.start());
        }
    }
    None
}

/// The least sector whose last key has a pointer that lies too far behind its bucket: more than 96
/// generations, or at all if the key is dirty. No device is read.
pub fn first_aged(s: &Survey) -> Option<u64>
    ensures { (p : Pair) → (h : HasSurvey p s.now.supers.backing s.now.supers.cache
        s.now.supers.geometry s.now.journal s.now.gens s.now.seen.items s.now.index.keys
        s.now.uses.items) → MatchOption result
        (IsWithinWindow s.now.supers.geometry h.view.reading)
        (IsLeastAged s.now.supers.geometry h.view.reading) }
{
    first_aged_row(&s.supers.geometry, &s.gens, &s.index)
}
