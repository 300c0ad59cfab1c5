//! Whether a pair is sound.
ghost use Rattle.std.specs.Prelude.{◌≡◌, ◌*◌, ◌/◌, ◌≤◌, length, All, IfOk};
ghost use Rattle.std.specs.Bool.{MatchBool};
ghost use Rattle.bc_disk.specs.Bytes.{image_of};
ghost use Rattle.bc_image.specs.Reading.{IsView, keys_of};
ghost use Rattle.bc_image.specs.Sound.{IsDataKey, IsSound};
ghost use Rattle.bc_jset.specs.Entries.{AreEntries};
ghost use Rattle.bc_plain_pair.specs.PairBytes.{AreSectors, pair_of};
ghost use Rattle.bc_plain_pair.specs.Parts.{HasAllParts, HasBuckets, HasData, HasJournal, HasRecords};
ghost use Rattle.bc_plain_pair.specs.Uses.{AreWithin};

use crate::data::{first_aged, first_apart};
use crate::first::data_sectors;
use crate::parts::has_superblocks;
use crate::pointers::has_pointers;
use crate::ranges::has_ranges;
use crate::reading::{View, view_of};
use crate::ring::{first_stray, has_room_for_entry};
use crate::shown::is_pass_through;
use crate::supers::backing_super;
use crate::uses::{has_one_use, has_spare, live_buckets};
use crate::uuids::names_first;
use bc_key::Key;
use std::alloc::{AllocError, Global};

// Whether the superblocks fit each other, the nodes keep their ranges, the pointers theirs, and the
// table of uuids names the backing device first, where these are all keys.
fn has_records(
    alloc: Global,
    v: &View,
    keys: &[Key],
    size: u64,
    cache: &[u8],
) -> Result<bool, AllocError>
    requires whole { AreSectors cache.now }
    requires room { v.now.geometry.bucket * v.now.geometry.nbuckets ≤ length cache.now / 512 }
    requires keys { keys.now ≡ keys_of v.now.reading }
    ensures { IfOk result (λ so. MatchBool so (HasRecords size (image_of cache.now) v.now)
        (¬ (HasRecords size (image_of cache.now) v.now))) }
{
    let (g, r) = (v.geometry(), v.reading());
    if !has_superblocks(v.backing(), v.cache()) {
        return Ok(false);
    }
    if !has_ranges(alloc, r)? {
        return Ok(false);
    }
    if !has_pointers(g, size, r, keys) {
        return Ok(false);
    }
    let key = &r.newest().item.uuid_bucket;
    names_first(alloc, cache, g, key, &v.backing().uuid)
}

// Whether no bucket is used twice, and enough are spare, where these are all keys, and whatever is
// used is a bucket of the device.
fn has_buckets(alloc: Global, v: &View, keys: &[Key], size: u64) -> Result<bool, AllocError>
    requires keys { keys.now ≡ keys_of v.now.reading }
    requires ends { All (IsDataKey v.now.geometry size) keys.now }
    requires within { AreWithin v.now.geometry v.now.reading }
    ensures { IfOk result (λ so. MatchBool so (HasBuckets v.now) (¬ (HasBuckets v.now))) }
{
    let live = live_buckets(alloc, v, keys, size)?;
    Ok(has_one_use(v, &live) && has_spare(v, &live))
}

// Whether the journal has room for one more entry, and each whole entry that stands in it counts or
// is older than those that do.
fn has_journal(alloc: Global, v: &View, cache: &[u8]) -> Result<bool, AllocError>
    requires whole { AreSectors cache.now }
    requires room { v.now.geometry.bucket * v.now.geometry.nbuckets ≤ length cache.now / 512 }
    requires listed { AreEntries v.now.geometry (image_of cache.now) v.now.reading.entries }
    ensures { IfOk result (λ so. MatchBool so (HasJournal (image_of cache.now) v.now)
        (¬ (HasJournal (image_of cache.now) v.now))) }
{
    let (g, r) = (v.geometry(), v.reading());
    let (entries, newest) = (r.entries(), r.newest());
    if !has_room_for_entry(alloc, cache, g, entries, newest)? {
        return Ok(false);
    }
    match first_stray(alloc, cache, g, entries, newest)? {
        Some(_) => Ok(false),
        None => Ok(true),
    }
}

// Whether no pointer lies too far behind its bucket, and both devices have the same where they
// should, where these are all keys.
fn has_data(v: &View, keys: &[Key], size: u64, cache: &[u8], backing: &[u8]) -> bool
    requires keys { keys.now ≡ keys_of v.now.reading }
    requires ends { All (IsDataKey v.now.geometry size) keys.now }
    ensures { MatchBool result (HasData (pair_of cache.now backing.now) v.now)
        (¬ (HasData (pair_of cache.now backing.now) v.now)) }
{
    if let Some(_) = first_aged(v, keys, size) {
        return false;
    }
    match first_apart(v, keys, size, cache, backing) {
        Some(_) => false,
        None => true,
    }
}

// Whether a pair of which this is found has each part of soundness.
fn has_all_parts(alloc: Global, v: &View, cache: &[u8], backing: &[u8]) -> Result<bool, AllocError>
    requires whole { AreSectors cache.now }
    requires view { IsView (pair_of cache.now backing.now) v.now }
    requires room { v.now.geometry.bucket * v.now.geometry.nbuckets ≤ length cache.now / 512 }
    ensures { IfOk result (λ so. MatchBool so
        (HasAllParts (pair_of cache.now backing.now) v.now)
        (¬ (HasAllParts (pair_of cache.now backing.now) v.now))) }
{
    let size = data_sectors(backing, v.backing());
    let keys = v.reading().keys(alloc)?;
    if !has_records(alloc, v, &keys, size, cache)? {
        return Ok(false);
    }
    if !has_buckets(alloc, v, &keys, size)? {
        return Ok(false);
    }
    if !has_journal(alloc, v, cache)? {
        return Ok(false);
    }
    Ok(has_data(v, &keys, size, cache, backing))
}

/// Whether the pair of these bytes is sound.
pub fn is_sound(alloc: Global, cache: &[u8], backing: &[u8]) -> Result<bool, AllocError>
    requires cache { AreSectors cache.now }
    requires backing { AreSectors backing.now }
    ensures { IfOk result (λ sound. MatchBool sound
        (IsSound (pair_of cache.now backing.now))
        (¬ (IsSound (pair_of cache.now backing.now)))) }
{
    let Some(b) = backing_super(alloc, cache, backing)? else {
        return Ok(false);
    };
    if is_pass_through(&b) {
        return Ok(true);
    }
    match view_of(alloc, cache, backing)? {
        Some(v) => has_all_parts(alloc, &v, cache, backing),
        None => Ok(false),
    }
}
