//! What is said of a pair: that it is sound, or which part of that fails first, in the order in
//! which a reader comes to them.
ghost use Rattle.std.specs.Prelude.{◌≡◌, ◌*◌, ◌/◌, ◌≤◌, length, All};
ghost use Rattle.bc_disk.specs.Bytes.{image_of};
ghost use Rattle.bc_image.specs.Pair.{HasCache};
ghost use Rattle.bc_image.specs.Reading.{keys_of};
ghost use Rattle.bc_image.specs.Sound.{IsDataKey};
ghost use Rattle.bc_jset.specs.Entries.{AreEntries};
ghost use Rattle.bc_super.specs.Super.{data_sectors};
ghost use Rattle.bc_plain_pair.specs.PairBytes.{AreSectors, pair_of};

use crate::chain::generations;
use crate::data::{count_live, first_aged, first_apart};
use crate::node::tree_keys;
use crate::pointers::{are_data_keys, is_table_key};
use crate::reading::{Reading, View, copy};
use crate::ring::{first_stray, has_room_for_entry};
use crate::search::Search;
use crate::shown::is_pass_through;
use crate::supers::{backing_super, cache_super};
use crate::uses::{count_spare, first_twice, live_buckets};
use crate::uuids::names_first;
use bc_disk::chain::sets_in_chain;
use bc_disk::gens::Gens;
use bc_disk::geometry::Geometry;
use bc_jset::JEntry;
use bc_plain::journal::{all_entries, entries_of};
use bc_record::Placed;
use bc_super::backing::BackingSuper;
use bc_super::cache::{CacheSuper, initialised};
use bc_super::division::geometry_of;
use bc_super::state::BackingState;
use std::alloc::{AllocError, Global};

/// What is said of a pair.
#[derive(Clone, Copy, Debug, PartialEq, Eq, Drop)]
pub enum Said {
    /// It is sound: the backing device serves alone.
    PassThrough,
    /// It is sound. So many sectors have live data on the cache device, dirty and clean.
    Sound { dirty: u64, clean: u64 },
    /// The superblock of the backing device can't be used.
    Backing,
    /// That of the cache device can't.
    Cache,
    /// The cache device wasn't set up for this backing device.
    NotSetUp,
    /// The devices are of different sets.
    OtherSet,
    /// The journal has no whole entry.
    NoEntry,
    /// The journal lacks some that its newest entry needs.
    Gap,
    /// The journal can't go on.
    Room,
    /// The chain of generations can't be read.
    Generations,
    /// The table of uuids doesn't name the backing device.
    Table,
    /// The node in this bucket can't be read, or its keys lie outside its range.
    Node { bucket: u64 },
    /// A pointer points where it may not.
    Pointer,
    /// This bucket, the least such, is used twice.
    TwoUses { bucket: u64 },
    /// So few buckets are spare.
    Spare { found: u32 },
    /// A whole entry that doesn't count stands in this bucket, the least such.
    Stray { bucket: u32 },
    /// The pointer of this sector, the least such, lies too far behind its bucket.
    Age { sector: u64 },
    /// The devices differ at this sector, the least such.
    Agree { sector: u64 },
}

impl Said {
    /// Whether it says that the pair is sound.
    pub fn is_sound(&self) -> bool {
        matches!(self, Said::PassThrough | Said::Sound { .. })
    }
}

// Why the superblocks don't fit each other, if they don't.
fn misfit(b: &BackingSuper, c: &CacheSuper) -> Option<Said> {
    if b.state() == BackingState::None || !initialised(c) {
        return Some(Said::NotSetUp);
    }
    if b.set_uuid != c.set_uuid {
        return Some(Said::OtherSet);
    }
    None
}

/// How many sectors of data a backing device of these bytes has, 2^40 at most.
pub fn data_sectors(backing: &[u8], b: &BackingSuper) -> u64
    ensures { result ≡ data_sectors (length backing.now / 512) b.now }
{
    let sectors = backing.len() as u64 / 512;
    sectors.saturating_sub(b.data_offset).min(1 << 40)
}

// What is said where all but the data could be read, and all pointers are within their ranges. The
// walk came again to these buckets.
fn said_of(
    alloc: Global,
    v: &View,
    again: &[u64],
    size: u64,
    cache: &[u8],
    backing: &[u8],
) -> Result<Said, AllocError>
    requires room { v.now.geometry.bucket * v.now.geometry.nbuckets ≤ length cache.now / 512 }
    requires listed { AreEntries v.now.geometry (image_of cache.now) v.now.reading.entries }
    requires data { All (IsDataKey v.now.geometry size) (keys_of v.now.reading) }
{
    let r = v.reading();
    let keys = r.keys(alloc)?;
    let live = live_buckets(alloc, v, &keys, size)?;
    if let Some(bucket) = first_twice(v, &live, again) {
        return Ok(Said::TwoUses { bucket });
    }
    let found = count_spare(v, &live);
    if found < sets_in_chain(v.geometry()) {
        return Ok(Said::Spare { found });
    }
    if let Some(bucket) = first_stray(alloc, cache, v.geometry(), r.entries(), r.newest())? {
        return Ok(Said::Stray { bucket });
    }
    if let Some(sector) = first_aged(v, &keys, size) {
        return Ok(Said::Age { sector });
    }
    if let Some(sector) = first_apart(v, &keys, size, cache, backing) {
        return Ok(Said::Agree { sector });
    }
    Ok(Said::Sound {
        dirty: count_live(v, &keys, size, true),
        clean: count_live(v, &keys, size, false),
    })
}

// What is said of a pair with these superblocks, entries and generations.
fn said_behind(
    alloc: Global,
    b: BackingSuper,
    c: CacheSuper,
    g: Geometry,
    entries: Vec<Placed<JEntry>>,
    newest: Placed<JEntry>,
    gens: Gens,
    cache: &[u8],
    backing: &[u8],
) -> Result<Said, AllocError>
    requires room { g.bucket * g.nbuckets ≤ length cache.now / 512 }
    requires listed { AreEntries g (image_of cache.now) entries.items }
{
    let size = data_sectors(backing, &b);
    let root = newest.item.root;
    let mut search = Search::new(alloc);
    if root.end != 1 << 40 {
        search.barred = true;
    } else {
        search.walk(alloc, cache, &g, newest.item.level, 0, &root)?;
    }
    let Search {
        nodes,
        buckets: _,
        again,
        barred,
        fault,
    } = search;
    if let Some(bucket) = fault {
        return Ok(Said::Node { bucket });
    }
    let reading = Reading::new(entries, newest, gens, nodes);
    let keys = reading.keys(alloc)?;
    if barred || !are_data_keys(&g, size, &keys) {
        return Ok(Said::Pointer);
    }
    let v = View::new(b, c, g, reading);
    said_of(alloc, &v, &again, size, cache, backing)
}

// What is said of a journal that hasn't the entries that it needs.
fn said_lacking(alloc: Global, cache: &[u8], g: &Geometry) -> Result<Said, AllocError>
    requires { 512 * (g.now.bucket * g.now.nbuckets) ≤ length cache.now }
{
    Ok(if all_entries(alloc, cache, g)?.is_empty() {
        Said::NoEntry
    } else {
        Said::Gap
    })
}

// What is said of a pair with these superblocks, which fit each other.
fn said_cached(
    alloc: Global,
    b: BackingSuper,
    c: CacheSuper,
    cache: &[u8],
    backing: &[u8],
) -> Result<Said, AllocError>
    requires whole { AreSectors cache.now }
    requires has { HasCache (pair_of cache.now backing.now) c }
{
    let g = geometry_of(&c);
    let Some(entries) = entries_of(alloc, cache, &g)? else {
        return said_lacking(alloc, cache, &g);
    };
    let Some(last) = entries.last() else {
        return said_lacking(alloc, cache, &g);
    };
    let newest = copy(alloc, last)?;
    if !has_room_for_entry(alloc, cache, &g, &entries, &newest)? {
        return Ok(Said::Room);
    }
    let Some(gens) = generations(alloc, cache, &g, newest.item.prio)? else {
        return Ok(Said::Generations);
    };
    let key = newest.item.uuid_bucket;
    if !is_table_key(&g, &key) || !names_first(alloc, cache, &g, &key, &b.uuid)? {
        return Ok(Said::Table);
    }
    said_behind(alloc, b, c, g, entries, newest, gens, cache, backing)
}

/// What is said of the pair of these bytes.
pub fn tell(alloc: Global, cache: &[u8], backing: &[u8]) -> Result<Said, AllocError>
    requires cache { AreSectors cache.now }
    requires backing { AreSectors backing.now }
{
    let Some(b) = backing_super(alloc, cache, backing)? else {
        return Ok(Said::Backing);
    };
    if is_pass_through(&b) {
        return Ok(Said::PassThrough);
    }
    let Some(c) = cache_super(alloc, cache, backing)? else {
        return Ok(Said::Cache);
    };
    if let Some(why) = misfit(&b, &c) {
        return Ok(why);
    }
    said_cached(alloc, b, c, cache, backing)
}
