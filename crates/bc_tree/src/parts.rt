//! The keys of a leaf, when it is cut or moves.
ghost use Rattle.std.specs.Prelude.{◌≡◌, ◌↔◌, ◌+◌, ◌<◌, ◌≤◌, ◌%◌, All, IfOk, IsTrue, max, min};
ghost use Rattle.bc_extent.specs.Extents.{IsInOrder, IsPart, IsRange, Shows};
ghost use Rattle.bc_extent.specs.LastKey.{last_key};
ghost use Rattle.bc_key.specs.Key.{start_of};
ghost use Rattle.bc_model.specs.Pieces.{piece_sectors};
ghost use Rattle.bc_tree.specs.Parts.{AreParts, IsCutTo, IsNearMiddle, LiesBetween, Meets, bounded};

use bc_extent::Extents;
use bc_key::{Key, cut_back, cut_front};
use std::alloc::{AllocError, Global};

/// The key without its sectors below `from`.
fn part_from(key: &Key, from: u64) -> Key
    requires range { IsRange key.now }
    requires inside { from < key.now.end }
    ensures cut { IsPart key.now result }
    ensures range { IsRange result }
    ensures begins { start_of result ≡ max from (start_of key.now) }
    ensures ends { result.end ≡ key.now.end }
{
    if from <= key.start() {
        return *key;
    }
    cut_front(key, (from - key.start()) as u16)
}

/// The key without its sectors from `end` on.
fn part_to(key: &Key, end: u64) -> Key
    requires range { IsRange key.now }
    requires inside { start_of key.now < end }
    ensures cut { IsPart key.now result }
    ensures range { IsRange result }
    ensures begins { start_of result ≡ start_of key.now }
    ensures ends { result.end ≡ min end key.now.end }
{
    if key.end <= end {
        return *key;
    }
    cut_back(key, (key.end - end) as u16)
}

/// Whether some sector of the key lies between these.
fn meets(from: u64, end: u64, key: &Key) -> bool
    ensures { IsTrue result ↔ Meets from end key.now }
{
    key.start() < end && from < key.end
}

/// The key as far as it lies between these sectors.
fn part(from: u64, end: u64, key: &Key) -> Key
    requires range { IsRange key.now }
    requires some { from < end }
    requires meets { Meets from end key.now }
    ensures { IsCutTo from end key.now result }
{
    part_to(&part_from(key, from), end)
}

/// The keys of these as far as they lie between two sectors, in order, for a leaf of that range: it
/// then has the key of each of its sectors that these have.
pub fn keys_between(
    alloc: Global,
    keys: &Extents,
    from: u64,
    end: u64,
) -> Result<Vec<Key>, AllocError>
    requires { from < end }
    ensures shows { IfOk result
        (λ parts. Shows (bounded from end (last_key keys.now.keys)) parts.items) }
    ensures order { IfOk result (λ parts. IsInOrder parts.items) }
    ensures within { IfOk result (λ parts. All (LiesBetween from end) parts.items) }
{
    let mut parts = Vec::new(alloc);
    for i in 0..keys.len() {
        let key = keys.key(i);
        if meets(from, end, &key) {
            parts.push(part(from, end, &key))?;
        }
    }
    Ok(parts)
}

/// Where a leaf of these keys is cut in two, so that each half has about half of them: within its
/// range, at a multiple of 256 sectors.
pub fn cut_of(keys: &Extents, from: u64, end: u64) -> u64
    requires begins { from % piece_sectors ≡ 0 }
    requires ends { end % piece_sectors ≡ 0 }
    requires long { from + piece_sectors < end }
    requires within { All (LiesBetween from end) keys.now.keys }
    ensures above { from < result }
    ensures below { result < end }
    ensures multiple { result % piece_sectors ≡ 0 }
    ensures middle { IsNearMiddle from keys.now.keys result }
{
    if keys.is_empty() {
        return from + 256;
    }
    let cut = keys.key(keys.len() / 2).start() / 256 * 256;
    if cut <= from {
        return from + 256;
    }
    cut
}
