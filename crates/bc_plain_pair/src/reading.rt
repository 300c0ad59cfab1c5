//! What a reader finds on a cache device, and what it finds of a pair.
ghost use Rattle.std.specs.Prelude.{◌≡◌, ◌*◌, ◌/◌, ◌≤◌, length, IfOk};
ghost use Rattle.bc_disk.specs.Bytes.{image_of};
ghost use Rattle.bc_image.specs.Reading.{IsReading, IsView, keys_of};
ghost use Rattle.bc_plain_pair.specs.PairBytes.{pair_of, AreSectors, Finds};

use crate::chain::generations;
use crate::node::{Node, add_walk, tree_keys};
use crate::supers::{backing_super, cache_super};
use bc_disk::gens::Gens;
use bc_disk::geometry::Geometry;
use bc_jset::JEntry;
use bc_key::Key;
use bc_keys::Keys;
use bc_plain::journal::entries_of;
use bc_record::Placed;
use bc_super::backing::BackingSuper;
use bc_super::cache::CacheSuper;
use bc_super::division::geometry_of;
use std::alloc::{AllocError, Global};
use std::marker::Model;

/// What a reader finds on a cache device.
#[derive(Drop)]
pub struct Reading {
    entries: Vec<Placed<JEntry>>,
    newest: Placed<JEntry>,
    gens: Gens,
    nodes: Vec<Node>,
}

impl Model for Reading {
    ghost use Rattle.bc_image.specs.Reading.{Reading};

    ghost Value = { Reading };

    ghost view = { λ r. record {
      entries = r.entries.items;
      newest = r.newest;
      gens = r.gens;
      nodes = r.nodes.items;
    } };
}

impl Reading {
    /// A reading of these parts.
    pub fn new(
        entries: Vec<Placed<JEntry>>,
        newest: Placed<JEntry>,
        gens: Gens,
        nodes: Vec<Node>,
    ) -> Reading
        ensures entries { result.entries ≡ entries.items }
        ensures newest { result.newest ≡ newest }
        ensures gens { result.gens ≡ gens }
        ensures nodes { result.nodes ≡ nodes.items }
    {
        Reading {
            entries,
            newest,
            gens,
            nodes,
        }
    }

    /// The entries of the journal, oldest first.
    pub fn entries(&self) -> &[Placed<JEntry>]
        ensures { result.now ≡ self.now.entries }
    {
        &self.entries
    }

    /// The newest of them.
    pub fn newest(&self) -> &Placed<JEntry>
        ensures { result.now ≡ self.now.newest }
    {
        &self.newest
    }

    /// The generations that it names.
    pub fn gens(&self) -> &Gens
        ensures { result.now ≡ self.now.gens }
    {
        &self.gens
    }

    /// The nodes below the root that it names.
    pub fn nodes(&self) -> &[Node]
        ensures { result.now ≡ self.now.nodes }
    {
        &self.nodes
    }

    /// All keys, the oldest first: those of the tree, and behind them those of the entries.
    pub fn keys(&self, alloc: Global) -> Result<Vec<Key>, AllocError>
        ensures { IfOk result (λ v. v.items ≡ keys_of self.now) }
    {
        let mut keys = tree_keys(alloc, &self.nodes)?;
        for entry in &self.entries {
            keys.extend_from_slice(entry.item.keys.as_slice())?;
        }
        Ok(keys)
    }
}

/// The same entry once more.
pub fn copy(alloc: Global, found: &Placed<JEntry>) -> Result<Placed<JEntry>, AllocError>
    ensures { IfOk result (λ e. e ≡ found.now) }
{
    let entry = &found.item;
    let keys = entry.keys.as_slice().to_vec(alloc)?;
    Ok(Placed {
        place: found.place,
        item: JEntry {
            seq: entry.seq,
            last_seq: entry.last_seq,
            uuid_bucket: entry.uuid_bucket,
            root: entry.root,
            level: entry.level,
            prio: entry.prio,
            keys: Keys::from_vec(keys),
        },
    })
}

/// What a reader finds on the cache device; nothing where its journal, its chain or its nodes can't
/// be read.
pub fn reading_of(alloc: Global, image: &[u8], g: &Geometry) -> Result<Option<Reading>, AllocError>
    requires whole { AreSectors image.now }
    requires room { g.now.bucket * g.now.nbuckets ≤ length image.now / 512 }
    ensures { IfOk result (Finds (IsReading g.now (image_of image.now))) }
{
    let Some(entries) = entries_of(alloc, image, g)? else {
        return Ok(None);
    };
    let Some(last) = entries.last() else {
        return Ok(None);
    };
    let newest = copy(alloc, last)?;
    let Some(gens) = generations(alloc, image, g, newest.item.prio)? else {
        return Ok(None);
    };
    let mut nodes = Vec::new(alloc);
    let (level, root) = (newest.item.level, newest.item.root);
    if !add_walk(alloc, image, g, level, 0, &root, &mut nodes)? {
        return Ok(None);
    }
    Ok(Some(Reading {
        entries,
        newest,
        gens,
        nodes,
    }))
}

/// What a reader finds of a pair.
#[derive(Drop)]
pub struct View {
    backing: BackingSuper,
    cache: CacheSuper,
    geometry: Geometry,
    reading: Reading,
}

impl Model for View {
    ghost use Rattle.bc_image.specs.Reading.{View};

    ghost Value = { View };

    ghost view = { λ v. record {
      backing = v.backing;
      cache = v.cache;
      geometry = v.geometry;
      reading = v.reading;
    } };
}

impl View {
    /// A view of these parts.
    pub fn new(
        backing: BackingSuper,
        cache: CacheSuper,
        geometry: Geometry,
        reading: Reading,
    ) -> View
        ensures backing { result.backing ≡ backing }
        ensures cache { result.cache ≡ cache }
        ensures geometry { result.geometry ≡ geometry }
        ensures reading { result.reading ≡ reading }
    {
        View {
            backing,
            cache,
            geometry,
            reading,
        }
    }

    /// What the backing device says of itself.
    pub fn backing(&self) -> &BackingSuper
        ensures { result.now ≡ self.now.backing }
    {
        &self.backing
    }

    /// What the cache device says of itself.
    pub fn cache(&self) -> &CacheSuper
        ensures { result.now ≡ self.now.cache }
    {
        &self.cache
    }

    /// How the cache device is divided.
    pub fn geometry(&self) -> &Geometry
        ensures { result.now ≡ self.now.geometry }
    {
        &self.geometry
    }

    /// What is found on it.
    pub fn reading(&self) -> &Reading
        ensures { result.now ≡ self.now.reading }
    {
        &self.reading
    }
}

/// What a reader finds of the pair; nothing where some part of it can't be read.
pub fn view_of(alloc: Global, cache: &[u8], backing: &[u8]) -> Result<Option<View>, AllocError>
    requires cache { AreSectors cache.now }
    requires backing { AreSectors backing.now }
    ensures { IfOk result (Finds (IsView (pair_of cache.now backing.now))) }
{
    let Some(b) = backing_super(alloc, cache, backing)? else {
        return Ok(None);
    };
    let Some(c) = cache_super(alloc, cache, backing)? else {
        return Ok(None);
    };
    let geometry = geometry_of(&c);
    let Some(reading) = reading_of(alloc, cache, &geometry)? else {
        return Ok(None);
    };
    Ok(Some(View {
        backing: b,
        cache: c,
        geometry,
        reading,
    }))
}
