//! What each bucket is used for.
ghost use Rattle.std.specs.Prelude.{◌≡◌, ◌++◌, ◌+◌, ◌<◌, ◌≤◌, ◌∷◌, [], ℕ, length, All, AllPairs, Any, Contains, IfOk, MatchOption};
ghost use Rattle.std.specs.Bool.{MatchBool};
ghost use Rattle.bc_image.specs.Pointers.{PointsInto};
ghost use Rattle.bc_image.specs.Reading.{keys_of};
ghost use Rattle.bc_image.specs.Sound.{HasOneUse, HasSpareBuckets, IsDataKey};
ghost use Rattle.bc_plain_pair.specs.Uses.{AreApart, AreLive, AreWithin, CountsUses, HasLive, HasOneKind, SpareBelow, StandsAlone, one_if};

use crate::node::Node;
use crate::reading::{Reading, View};
use crate::shown::{bucket_at, is_live, place_of};
use bc_disk::chain::sets_in_chain;
use bc_disk::geometry::Geometry;
use bc_key::Key;
use bc_plain::extent::last_key;
use std::alloc::{AllocError, Global};

// Whether a key points into a bucket.
fn points_into(g: &Geometry, key: &Key, bucket: u64) -> bool
    ensures { MatchBool result (PointsInto g.now key.now bucket)
        (¬ (PointsInto g.now key.now bucket)) }
{
    match key.pointer() {
        Some(ptr) => bucket_at(g, ptr.offset) == bucket,
        None => false,
    }
}

// The bucket in which a sector's data lies, if its key is live, where these are all keys.
fn live_bucket(v: &View, keys: &[Key], sector: u64) -> Option<u64>
    requires { keys.now ≡ keys_of v.now.reading }
    ensures { MatchOption result
        ((bucket : ℕ) → ¬ (HasLive v.now.geometry v.now.reading sector bucket))
        (HasLive v.now.geometry v.now.reading sector) }
{
    let Some(key) = last_key(keys, sector) else {
        return None;
    };
    let (g, gens) = (v.geometry(), v.reading().gens());
    if !is_live(g, gens, &key) {
        return None;
    }
    Some(bucket_at(g, place_of(&key, sector)))
}

// Adds a bucket, if there is one.
fn add_found(found: Option<u64>, buckets: &mut Vec<u64>) -> Result<(), AllocError>
    ensures { IfOk result (λ _. MatchOption found (buckets.new.items ≡ buckets.old.items)
        (λ bucket. buckets.new.items ≡ buckets.old.items ++ bucket ∷ [])) }
{
    if let Some(bucket) = found {
        buckets.push(bucket)?;
    }
    Ok(())
}

/// The bucket of each sector's live data, where these are all keys, each with its pointers within
/// data of so many sectors.
pub fn live_buckets(
    alloc: Global,
    v: &View,
    keys: &[Key],
    size: u64,
) -> Result<Vec<u64>, AllocError>
    requires keys { keys.now ≡ keys_of v.now.reading }
    requires ends { All (IsDataKey v.now.geometry size) keys.now }
    ensures { IfOk result (λ live. AreLive v.now.geometry v.now.reading live.items) }
{
    let mut buckets = Vec::new(alloc);
    for sector in 0..size {
        add_found(live_bucket(v, keys, sector), &mut buckets)?;
    }
    Ok(buckets)
}

// Whether a node lies in a bucket.
fn has_node(g: &Geometry, nodes: &[Node], bucket: u64) -> bool
    ensures { MatchBool result (Any (λ n. PointsInto g.now n.key bucket) nodes.now)
        (¬ (Any (λ n. PointsInto g.now n.key bucket) nodes.now)) }
{
    for node in nodes {
        if points_into(g, node.key(), bucket) {
            return true;
        }
    }
    false
}

// Whether a set of generations lies in a bucket.
fn has_set(chain: &[u32], bucket: u64) -> bool
    ensures { MatchBool result (Contains chain.now bucket) (¬ (Contains chain.now bucket)) }
{
    for place in chain {
        if u64::from(*place) == bucket {
            return true;
        }
    }
    false
}

// Whether a bucket is one of these.
fn is_among(buckets: &[u64], bucket: u64) -> bool
    ensures { MatchBool result (Contains buckets.now bucket) (¬ (Contains buckets.now bucket)) }
{
    for place in buckets {
        if *place == bucket {
            return true;
        }
    }
    false
}

// Whether a bucket is one of the journal's.
fn is_journal(g: &Geometry, bucket: u64) -> bool
    ensures { MatchBool result
        ((g.now.first_bucket ≤ bucket) × (bucket < g.now.first_bucket + g.now.journal))
        (¬ ((g.now.first_bucket ≤ bucket) × (bucket < g.now.first_bucket + g.now.journal))) }
{
    let first = u64::from(g.first_bucket);
    first <= bucket && bucket < first + u64::from(g.journal)
}

// Whether a bucket lies before the journal's.
fn is_super(g: &Geometry, bucket: u64) -> bool
    ensures { MatchBool result (bucket < g.now.first_bucket)
        (¬ (bucket < g.now.first_bucket)) }
{
    bucket < u64::from(g.first_bucket)
}

// Whether a set of the chain of a reading lies in a bucket.
fn is_in_chain(r: &Reading, bucket: u64) -> bool
    ensures { MatchBool result (Contains r.now.gens.chain bucket)
        (¬ (Contains r.now.gens.chain bucket)) }
{
    has_set(r.gens().chain(), bucket)
}

// Whether the table of uuids of a reading lies in a bucket.
fn is_in_table(g: &Geometry, r: &Reading, bucket: u64) -> bool
    ensures { MatchBool result (PointsInto g.now r.now.newest.item.uuid_bucket bucket)
        (¬ (PointsInto g.now r.now.newest.item.uuid_bucket bucket)) }
{
    points_into(g, &r.newest().item.uuid_bucket, bucket)
}

// Whether a node of a reading lies in a bucket.
fn is_in_node(g: &Geometry, r: &Reading, bucket: u64) -> bool
    ensures { MatchBool result (Any (λ n. PointsInto g.now n.key bucket) r.now.nodes)
        (¬ (Any (λ n. PointsInto g.now n.key bucket) r.now.nodes)) }
{
    has_node(g, r.nodes(), bucket)
}

// One for what is so.
fn one_if(so: bool) -> u32
    ensures is { result ≡ one_if so }
    ensures few { result ≤ 1 }
{
    if so { 1 } else { 0 }
}

// How many of these are so.
fn count_so(a: bool, b: bool, c: bool, d: bool, e: bool, f: bool) -> u32
    ensures { result ≡ one_if a + one_if b + one_if c + one_if d + one_if e + one_if f }
{
    one_if(a) + one_if(b) + one_if(c) + one_if(d) + one_if(e) + one_if(f)
}

/// How many kinds of use a bucket has, where data lies in these buckets.
pub fn count_uses(v: &View, live: &[u64], bucket: u64) -> u32
    requires { AreLive v.now.geometry v.now.reading live.now }
    ensures { CountsUses v.now.geometry v.now.reading bucket result }
{
    let (g, r) = (v.geometry(), v.reading());
    count_so(
        is_super(g, bucket),
        is_journal(g, bucket),
        is_in_chain(r, bucket),
        is_in_table(g, r, bucket),
        is_in_node(g, r, bucket),
        is_among(live, bucket),
    )
}

// Whether no bucket has both nodes.
fn is_apart(g: &Geometry, one: &Node, other: &Node) -> bool
    ensures { MatchBool result (AreApart g.now one.now other.now)
        (¬ (AreApart g.now one.now other.now)) }
{
    let (first, second) = (one.key(), other.key());
    let Some(ptr) = first.pointer() else {
        return true;
    };
    !points_into(g, second, bucket_at(g, ptr.offset))
}

// Whether a node lies in no bucket of those behind it.
fn stands_alone(g: &Geometry, nodes: &[Node], i: usize) -> bool
    requires { i < length nodes.now }
    ensures { MatchBool result (StandsAlone g.now nodes.now i)
        (¬ (StandsAlone g.now nodes.now i)) }
{
    for j in i + 1..nodes.len() {
        if !is_apart(g, &nodes[i], &nodes[j]) {
            return false;
        }
    }
    true
}

// Whether no two nodes lie in one bucket.
fn are_apart(g: &Geometry, nodes: &[Node]) -> bool
    ensures { MatchBool result (AllPairs (AreApart g.now) nodes.now)
        (¬ (AllPairs (AreApart g.now) nodes.now)) }
{
    for i in 0..nodes.len() {
        if !stands_alone(g, nodes, i) {
            return false;
        }
    }
    true
}

/// The first bucket that has two kinds of use, or is one of these, where data lies in these
/// buckets.
pub fn first_twice(v: &View, live: &[u64], twice: &[u64]) -> Option<u64>
    requires { AreLive v.now.geometry v.now.reading live.now }
{
    for bucket in 0..u64::from(v.geometry().nbuckets) {
        if count_uses(v, live, bucket) > 1 || is_among(twice, bucket) {
            return Some(bucket);
        }
    }
    None
}

// Whether each bucket has at most one kind of use, where data lies in these buckets.
fn has_one_kind(v: &View, live: &[u64]) -> bool
    requires live { AreLive v.now.geometry v.now.reading live.now }
    requires within { AreWithin v.now.geometry v.now.reading }
    ensures { MatchBool result
        ((bucket : ℕ) → HasOneKind v.now.geometry v.now.reading bucket)
        (¬ ((bucket : ℕ) → HasOneKind v.now.geometry v.now.reading bucket)) }
{
    for bucket in 0..u64::from(v.geometry().nbuckets) {
        let kinds = count_uses(v, live, bucket);
        if kinds > 1 {
            return false;
        }
    }
    true
}

/// Whether each bucket has at most one kind of use, and no two nodes lie in one, where data lies
/// in these buckets, and whatever is used is a bucket of the device.
pub fn has_one_use(v: &View, live: &[u64]) -> bool
    requires live { AreLive v.now.geometry v.now.reading live.now }
    requires within { AreWithin v.now.geometry v.now.reading }
    ensures { MatchBool result (HasOneUse v.now.geometry v.now.reading)
        (¬ (HasOneUse v.now.geometry v.now.reading)) }
{
    has_one_kind(v, live) && are_apart(v.geometry(), v.reading().nodes())
}

/// How many buckets have no use, where data lies in these buckets.
pub fn count_spare(v: &View, live: &[u64]) -> u32
    requires { AreLive v.now.geometry v.now.reading live.now }
    ensures { SpareBelow v.now.geometry v.now.reading v.now.geometry.nbuckets result }
{
    let mut count = 0;
    for bucket in 0..v.geometry().nbuckets {
        let kinds = count_uses(v, live, u64::from(bucket));
        count += one_if(kinds == 0);
    }
    count
}

/// Whether so many buckets have no use as a chain of generations takes.
pub fn has_spare(v: &View, live: &[u64]) -> bool
    requires { AreLive v.now.geometry v.now.reading live.now }
    ensures { MatchBool result (HasSpareBuckets v.now.geometry v.now.reading)
        (¬ (HasSpareBuckets v.now.geometry v.now.reading)) }
{
    let found = count_spare(v, live);
    let wanted = sets_in_chain(v.geometry());
    if found < wanted {
        return false;
    }
    true
}
