//! What a pair shows.
ghost use Rattle.std.specs.Prelude.{◌≡◌, ◌↔◌, IfOk, IsTrue, MatchOption};
ghost use Rattle.bc_model.specs.Sector.{Image};
ghost use Rattle.bc_record.specs.Places.{bucket_at};
ghost use Rattle.bc_key.specs.Key.{place_at};
ghost use Rattle.bc_super.specs.Division.{IsPassThrough};
ghost use Rattle.bc_image.specs.Reading.{View, IsView, keys_of};
ghost use Rattle.bc_image.specs.Shown.{generation_of, age_of, is_live, shown_by, IsShown};
ghost use Rattle.bc_plain_pair.specs.PairBytes.{pair_of, AreSectors};
ghost use Rattle.bc_plain_pair.specs.LivePlace.{live_place};

use crate::bytes::sector_of;
use crate::reading::{View, view_of};
use crate::supers::backing_super;
use bc_disk::gens::Gens;
use bc_disk::geometry::Geometry;
use bc_key::{Key, Ptr};
use bc_mode::Mode;
use bc_plain::extent::last_key;
use bc_super::backing::BackingSuper;
use bc_super::state::BackingState;
use std::alloc::{AllocError, Global};

/// The bucket in which a sector of the cache device lies.
pub fn bucket_at(g: &Geometry, sector: u64) -> u64
    ensures { result ≡ bucket_at g.now sector }
{
    sector / u64::from(g.bucket)
}

/// The generation of a bucket; 0 where nothing is told of it.
pub fn generation_of(gens: &Gens, bucket: u64) -> u8
    ensures { result ≡ generation_of gens.now bucket }
{
    match gens.records().get(bucket as usize) {
        Some(record) => record.generation,
        None => 0,
    }
}

/// How many generations a pointer lies behind its bucket, modulo 256.
pub fn age_of(g: &Geometry, gens: &Gens, ptr: &Ptr) -> u8
    ensures { result ≡ age_of g.now gens.now ptr.now }
{
    let generation = generation_of(gens, bucket_at(g, ptr.offset));
    generation.wrapping_sub(ptr.generation)
}

/// Whether the data of a key is on the cache device.
pub fn is_live(g: &Geometry, gens: &Gens, key: &Key) -> bool
    ensures { result ≡ is_live g.now gens.now key.now }
{
    match key.pointer() {
        Some(ptr) => {
            let age = age_of(g, gens, &ptr);
            !(1 <= age && age <= 128)
        }
        None => false,
    }
}

/// Where a sector of a key's range lies, by its first pointer. Places count modulo 2^43.
pub fn place_of(key: &Key, sector: u64) -> u64
    ensures { result ≡ place_at key.now 0 sector }
{
    let behind = sector.saturating_sub(key.start());
    let place = u128::from(key.ptrs[0].offset) + u128::from(behind);
    (place % (1 << 43)) as u64
}

/// Where a sector with this key lies on the cache device, if its data is there.
pub fn live_place(g: &Geometry, gens: &Gens, key: Option<Key>, sector: u64) -> Option<u64>
    ensures { result ≡ live_place g.now gens.now key sector }
{
    let Some(key) = key else {
        return None;
    };
    if !is_live(g, gens, &key) {
        return None;
    }
    Some(place_of(&key, sector))
}

/// What a cached pair gives to a sector, where these are all its keys.
pub fn value_of<'a>(
    v: &View,
    keys: &[Key],
    cache: &'a [u8],
    backing: &'a [u8],
    sector: u64,
) -> &'a [u8]
    requires { keys.now ≡ keys_of v.now.reading }
    ensures { result.now ≡ shown_by (pair_of cache.now backing.now) v.now sector }
{
    let key = last_key(keys, sector);
    let place = live_place(v.geometry(), v.reading().gens(), key, sector);
    match place {
        Some(place) => sector_of(cache, u128::from(place)),
        None => {
            let offset = v.backing().data_offset;
            sector_of(backing, u128::from(offset) + u128::from(sector))
        }
    }
}

/// Whether the backing device serves alone.
pub fn is_pass_through(b: &BackingSuper) -> bool
    ensures { IsTrue result ↔ IsPassThrough b.now }
{
    b.mode() == Mode::None && b.state() == BackingState::None
}

// What a cached pair shows at a sector; nothing where it can't be read.
fn cached(
    alloc: Global,
    cache: &[u8],
    backing: &[u8],
    sector: u64,
) -> Result<Option<Vec<u8>>, AllocError>
    requires cache { AreSectors cache.now }
    requires backing { AreSectors backing.now }
    ensures { IfOk result (λ o. MatchOption o
        ((v : View) → IsView (pair_of cache.now backing.now) v → ⊥)
        (λ value. (v : View) × IsView (pair_of cache.now backing.now) v
        × (value.items ≡ shown_by (pair_of cache.now backing.now) v sector))) }
{
    let Some(v) = view_of(alloc, cache, backing)? else {
        return Ok(None);
    };
    let keys = v.reading().keys(alloc)?;
    let value = Vec::from_slice(alloc, value_of(&v, &keys, cache, backing, sector))?;
    Ok(Some(value))
}

/// What the pair shows at a sector of its data; nothing where it shows nothing, since it can't be
/// read. Where the sector lies behind what the devices hold, it is no bytes.
pub fn shown(
    alloc: Global,
    cache: &[u8],
    backing: &[u8],
    sector: u64,
) -> Result<Option<Vec<u8>>, AllocError>
    requires cache { AreSectors cache.now }
    requires backing { AreSectors backing.now }
    ensures { IfOk result (λ o. MatchOption o
        ((f : Image) → IsShown (pair_of cache.now backing.now) f → ⊥)
        (λ value. (f : Image) × IsShown (pair_of cache.now backing.now) f
        × (value.items ≡ f sector))) }
{
    let Some(b) = backing_super(alloc, cache, backing)? else {
        return Ok(None);
    };
    if !is_pass_through(&b) {
        return cached(alloc, cache, backing, sector);
    }
    let place = u128::from(b.data_offset) + u128::from(sector);
    let value = Vec::from_slice(alloc, sector_of(backing, place))?;
    Ok(Some(value))
}
