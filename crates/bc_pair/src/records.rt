//! The records of a new pair: an index without keys, and what tells where it stands.
//!
//! A reader starts from the newest entry of the journal, so there has to be one. It names a root, the
//! uuid table and the first priority set; the root needs a child, since leaves stand below it.
ghost use Rattle.std.specs.Prelude.{◌≡◌, ◌+◌, ◌-◌, ◌*◌, ◌^◌, ◌<◌, ◌≤◌, ◌++◌, [], ◌∷◌, replicate, IfOk, OnOk};
ghost use Rattle.bc_image.specs.Formatted.{first_set, leaf_bucket, root_bucket, table_bucket};
ghost use Rattle.bc_disk.specs.Chain.{sets_in_chain};
ghost use Rattle.bc_super.specs.declared.backing.BackingSuper.{BackingSuper};
ghost use Rattle.bc_pair.specs.Records.{AreBuckets, AreFresh, AreNew, IsFirstEntry, IsFirstSet, IsNewKey, IsRoot};
ghost use Rattle.bc_pair.specs.Steps.{HasRoom, NamesBuckets};

use bc_disk::gens::Gens;
use bc_disk::geometry::Geometry;
use bc_jset::JEntry;
use bc_key::{Key, Ptr};
use bc_keys::Keys;
use bc_set::Set;
use bc_super::backing::BackingSuper;
use bc_super::layout::Layout;
use bc_uuid::Uuids;
use std::alloc::{AllocError, Global};

/// The records of a new pair.
#[derive(Drop)]
pub struct Records {
    /// Entry 1 of the journal.
    pub entry: JEntry,
    /// The generation and the priority of each bucket, and the buckets in which they stand.
    pub gens: Gens,
    /// The uuid table.
    pub table: Uuids,
    /// The set of the root, which has the key of the leaf.
    pub root: Set,
    /// The set of the leaf, which has none.
    pub leaf: Set,
}

/// The end of all ranges: the first sector that no backing device is taken to have.
const END: u64 = 1 << 40;

/// The priority of a bucket that is used.
const USED: u16 = 65535;

// The key to a bucket.
fn key_to(g: &Geometry, bucket: u32, end: u64, size: u16) -> Key
    requires { bucket < g.now.nbuckets }
    ensures { IsNewKey g.now bucket end size result }
{
    let ptr = Ptr {
        dev: 0,
        offset: u64::from(g.bucket) * u64::from(bucket),
        generation: 0,
    };
    Key::new(end, size, false, Some(ptr))
}

// Entry 1.
fn first_entry(alloc: Global, g: &Geometry, l: &Layout) -> JEntry
    requires names { NamesBuckets l.now g.now }
    requires within { leaf_bucket g.now < g.now.nbuckets }
    ensures { IsFirstEntry g.now result }
{
    JEntry {
        seq: 1,
        last_seq: 1,
        uuid_bucket: key_to(g, l.uuid, u64::from(g.bucket), g.bucket),
        root: key_to(g, l.root, END, g.node_sectors),
        level: 1,
        prio: u64::from(l.prio),
        keys: Keys::from_vec(Vec::new(alloc)),
    }
}

// The priorities and generations.
fn fresh_gens(alloc: Global, g: &Geometry, l: &Layout) -> Result<Gens, AllocError>
    requires names { NamesBuckets l.now g.now }
    requires within { leaf_bucket g.now < g.now.nbuckets }
    ensures fresh { IfOk result (λ gens. AreFresh g.now gens.records) }
    ensures chain { IfOk result (λ gens. gens.chain ≡ []) }
{
    let mut gens = Gens::new(alloc, g)?;
    for bucket in 0..l.leaf + 1 {
        gens.set(bucket, USED, 0);
    }
    Ok(gens)
}

// Adds the buckets of the chain.
fn add_chain(gens: &mut Gens, l: &Layout) -> Result<(), AllocError>
    requires none { gens.old.chain ≡ [] }
    requires few { l.now.prio + l.now.p < 2 ^ 32 }
    ensures records { gens.new.records ≡ gens.old.records }
    ensures chain { OnOk result (AreBuckets l.now.prio l.now.p gens.new.chain) }
{
    for i in 0..l.p {
        gens.add_to_chain(l.prio + i)?;
    }
    Ok(())
}

// The set of the root.
fn root_of(alloc: Global, g: &Geometry, l: &Layout) -> Result<Set, AllocError>
    requires names { NamesBuckets l.now g.now }
    requires within { leaf_bucket g.now < g.now.nbuckets }
    ensures { IfOk result (λ s. IsRoot g.now s) }
{
    let leaf = key_to(g, l.leaf, END, g.node_sectors);
    let keys = vec![in alloc; leaf]?;
    Ok(Set {
        seq: 65537,
        version: 1,
        keys: Keys::from_vec(keys),
    })
}

// The set of the leaf.
fn empty_leaf(alloc: Global) -> Set
    ensures { IsFirstSet 65536 [] result }
{
    Set {
        seq: 65536,
        version: 1,
        keys: Keys::from_vec(Vec::new(alloc)),
    }
}

impl Records {
    /// The records for a cache device that is divided so, of a pair with this superblock of the
    /// backing device.
    pub(crate) fn new(
        alloc: Global,
        g: &Geometry,
        l: &Layout,
        b: &BackingSuper,
    ) -> Result<Records, AllocError>
        requires names { NamesBuckets l.now g.now }
        requires within { leaf_bucket g.now < g.now.nbuckets }
        ensures { IfOk result (λ r. AreNew g.now b.now r) }
    {
        let mut gens = fresh_gens(alloc, g, l)?;
        add_chain(&mut gens, l)?;
        let table = Uuids::new(alloc, g, &b.uuid, &b.label)?;
        let root = root_of(alloc, g, l)?;
        Ok(Records {
            entry: first_entry(alloc, g, l),
            gens,
            table,
            root,
            leaf: empty_leaf(alloc),
        })
    }
}
