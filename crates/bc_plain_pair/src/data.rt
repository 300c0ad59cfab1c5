//! What each sector's last key says: how far its pointer lies behind, and what both devices have.
ghost use Rattle.std.specs.Prelude.{◌≡◌, All, MatchOption, Some};
ghost use Rattle.std.specs.Bool.{MatchBool};
ghost use Rattle.bc_image.specs.Reading.{keys_of};
ghost use Rattle.bc_image.specs.Sound.{AgreesWhereClean, IsDataKey, IsWithinWindow};
ghost use Rattle.bc_plain_pair.specs.PairBytes.{pair_of};
ghost use Rattle.bc_plain_pair.specs.Sectors.{Agrees, AgreesAt, IsAgedAt, IsAgedKey, IsApart, IsApartAt, IsLeast};

use crate::bytes::sector_of;
use crate::reading::View;
use crate::shown::{age_of, is_live, place_of};
use bc_disk::gens::Gens;
use bc_disk::geometry::Geometry;
use bc_key::Key;
use bc_plain::extent::last_key;

/// How many generations a pointer may lie behind its bucket.
const WINDOW: u8 = 96;

// Whether a key's pointer lies too far behind its bucket.
fn is_aged_key(g: &Geometry, gens: &Gens, key: &Key) -> bool
    ensures { MatchBool result (IsAgedKey g.now gens.now key.now)
        (¬ (IsAgedKey g.now gens.now key.now)) }
{
    let Some(ptr) = key.pointer() else {
        return false;
    };
    let age = age_of(g, gens, &ptr);
    if age > WINDOW {
        return true;
    }
    if !key.dirty {
        return false;
    }
    age != 0
}

// Whether that of a sector's last key does, where these are all keys.
fn is_aged(v: &View, keys: &[Key], sector: u64) -> bool
    requires { keys.now ≡ keys_of v.now.reading }
    ensures { MatchBool result (IsAgedAt v.now sector) (¬ (IsAgedAt v.now sector)) }
{
    match last_key(keys, sector) {
        Some(key) => is_aged_key(v.geometry(), v.reading().gens(), &key),
        None => false,
    }
}

/// The first sector whose last key has a pointer that lies too far behind its bucket, where these
/// are all keys, each with its pointers within data of so many sectors.
pub fn first_aged(v: &View, keys: &[Key], size: u64) -> Option<u64>
    requires keys { keys.now ≡ keys_of v.now.reading }
    requires ends { All (IsDataKey v.now.geometry size) keys.now }
    ensures { MatchOption result (IsWithinWindow v.now.geometry v.now.reading)
        (IsLeast (IsAgedAt v.now)) }
{
    for sector in 0..size {
        if is_aged(v, keys, sector) {
            return Some(sector);
        }
    }
    None
}

// Whether the devices have different values of a sector, though its key is live and clean.
fn is_apart(v: &View, key: &Key, cache: &[u8], backing: &[u8], sector: u64) -> bool
    ensures { MatchBool result (IsApart (pair_of cache.now backing.now) v.now sector key.now)
        (Agrees (pair_of cache.now backing.now) v.now sector key.now) }
{
    if key.dirty || !is_live(v.geometry(), v.reading().gens(), key) {
        return false;
    }
    let offset = u128::from(v.backing().data_offset);
    let one = sector_of(cache, u128::from(place_of(key, sector)));
    one != sector_of(backing, offset + u128::from(sector))
}

// Whether that is so by a sector's last key, where these are all keys.
fn has_apart(v: &View, keys: &[Key], cache: &[u8], backing: &[u8], sector: u64) -> bool
    requires { keys.now ≡ keys_of v.now.reading }
    ensures { MatchBool result (IsApartAt (pair_of cache.now backing.now) v.now sector)
        (AgreesAt (pair_of cache.now backing.now) v.now sector) }
{
    match last_key(keys, sector) {
        Some(key) => is_apart(v, &key, cache, backing, sector),
        None => false,
    }
}

/// The first sector whose last key is live and clean, and of which the devices have different
/// values, where these are all keys, each with its pointers within data of so many sectors.
pub fn first_apart(v: &View, keys: &[Key], size: u64, cache: &[u8], backing: &[u8]) -> Option<u64>
    requires keys { keys.now ≡ keys_of v.now.reading }
    requires ends { All (IsDataKey v.now.geometry size) keys.now }
    ensures { MatchOption result (AgreesWhereClean (pair_of cache.now backing.now) v.now)
        (IsLeast (IsApartAt (pair_of cache.now backing.now) v.now)) }
{
    for sector in 0..size {
        if has_apart(v, keys, cache, backing, sector) {
            return Some(sector);
        }
    }
    None
}

/// How many sectors below the size have a live last key that is dirty, or clean.
pub fn count_live(v: &View, keys: &[Key], size: u64, dirty: bool) -> u64 {
    let mut count: u64 = 0;
    for sector in 0..size {
        if let Some(key) = last_key(keys, sector) {
            if key.dirty == dirty && is_live(v.geometry(), v.reading().gens(), &key) {
                count = count.saturating_add(1);
            }
        }
    }
    count
}
