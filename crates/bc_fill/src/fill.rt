//! The open buckets, and the places in them.
ghost use Rattle.std.specs.Prelude.{◌≡◌, ◌↔◌, ℕ, ◌+◌, ◌<◌, ◌≤◌, ◌∷◌, ◌++◌, [], length, IfOk, IfErr, IsErr, OnErr, true};
ghost use Rattle.bc_bucket.specs.Buckets.{bucket_of};
ghost use Rattle.bc_alloc.specs.Buckets.{AreFor};
ghost use Rattle.bc_alloc.specs.Reserve.{times};
ghost use Rattle.bc_alloc.specs.Reserves.{list_of};
ghost use Rattle.bc_fill.specs.Fill.{with_opened, AreOpen, IsOpened, Places};

use arrayvec::ArrayVec;
use bc_alloc::{NoBucket, Purpose, Reserves};
use bc_bucket::Buckets;
use bc_key::Ptr;
use std::marker::Model;

/// How many buckets may be open.
pub const MOST: usize = 16;

/// An open bucket.
#[derive(Clone, Copy, Debug, PartialEq, Eq, Default, Drop)]
pub struct Open {
    pub bucket: u32,
    /// Its first sector, counted from its begin, that was placed to nobody yet.
    pub next: u16,
}

/// A place for data, or for the first part of it.
#[derive(Clone, Copy, Debug, PartialEq, Eq)]
pub struct Placed {
    /// Where it begins.
    pub ptr: Ptr,
    /// How many sectors it has.
    pub count: u32,
    /// The bucket that was taken for it, if none was open.
    pub opened: Option<u32>,
}

/// The buckets that are open for data, at most 16. Each has a free sector.
#[derive(Drop)]
pub struct Fill {
    open: ArrayVec<Open, 16>,
}

impl Model for Fill {
    ghost use Rattle.std.specs.Prelude.{List};
    ghost use Rattle.bc_fill.specs.declared.fill.Open.{Open};

    ghost Value = { List Open };

    ghost view = { λ f. f.open.items };
}

impl Fill {
    ghost use Rattle.bc_fill.specs.Fill.{bucket_numbers, just_opened, HaveFree, IsCut};

    /// No bucket is open.
    pub fn new() -> Fill
        ensures { result ≡ [] }
    {
        Fill {
            open: ArrayVec::new(),
        }
    }

    /// The open buckets; places are given in the first one.
    pub fn open(&self) -> &[Open]
        ensures value { result.now ≡ self.now }
        ensures few { length self.now ≤ 16 }
    {
        self.open.as_slice()
    }

    /// Opens a bucket that was taken for data, behind the other open ones. Takes no memory.
    pub fn add_bucket(&mut self, bucket: u32)
        requires { length self.old < 16 }
        ensures { self.new ≡ self.old ++ just_opened bucket ∷ [] }
    {
        self.open.push(Open { bucket, next: 0 });
    }

    // Cuts a place of `count` sectors, or of as many as are left, from the first open bucket, and
    // shuts it where that fills it.
    fn cut(&mut self, b: &mut Buckets, count: u32, opened: Option<u32>) -> Placed
        requires some { 0 < length self.old }
        requires count { 1 ≤ count }
        requires free { HaveFree b.old.size self.old }
        requires held { (k : ℕ) → 0 < times k (bucket_numbers self.old)
            → (k < length b.old.records) × ((bucket_of b.old k).held ≡ true) }
        ensures cut { IsCut self.old self.new b.old b.new count result }
        ensures opened { result.opened ≡ opened }
    {
        let size = b.bucket_sectors();
        let Open { bucket, next } = self.open[0];
        let count = count.min(u32::from(size - next));
        let ptr = Ptr {
            dev: 0,
            offset: u64::from(bucket) * u64::from(size) + u64::from(next),
            generation: b.get(bucket).generation,
        };
        let next = next + count as u16;
        if next == size {
            self.open.remove(0);
            b.let_go(bucket);
        } else {
            self.open[0].next = next;
        }
        Placed { ptr, count, opened }
    }
}

// Opens a bucket from the plain list, where none is open.
fn open_one(f: &mut Fill, r: &mut Reserves, b: &mut Buckets) -> Result<Option<u32>, NoBucket>
    requires fit { AreFor r.old b.old }
    requires opens { AreOpen f.old r.old b.old }
    ensures opened { IfOk result (λ k. IsOpened k f.old r.old r.new b.old b.new
        × (f.new ≡ with_opened k f.old)) }
    ensures some { IfOk result (λ k. 0 < length f.new) }
    ensures refused { IsErr result ↔ ((f.old ≡ []) × ((list_of Purpose.Plain r.old).buckets ≡ [])) }
    ensures why { IfErr result (λ e.
        e ≡ record { purpose = Purpose.Plain; none_len = 0; own_len = 0 }) }
    ensures same { OnErr result ((f.new ≡ f.old) × (r.new ≡ r.old) × (b.new ≡ b.old)) }
    ensures fit { AreFor r.new b.new }
    ensures opens { AreOpen f.new r.new b.new }
    ensures size { b.new.size ≡ b.old.size }
{
    if !f.open().is_empty() {
        return Ok(None);
    }
    let bucket = match r.take(b, Purpose::Plain) {
        Ok(bucket) => bucket,
        Err(none) => return Err(none),
    };
    let _size = b.bucket_sectors();
    f.add_bucket(bucket);
    Ok(Some(bucket))
}

/// Gives a place for `count` sectors of data, or for as many as fit up to its bucket's end: the
/// first free sectors of the first open bucket. Where no bucket is open, one is taken from the
/// plain list and opened. A bucket that is full then is open no longer, and let go. `NoBucket`
/// comes exactly where no bucket is open and the plain list is empty, and nothing has changed then.
/// The caller pins the bucket before anybody else sees it. Takes no memory.
pub fn place(
    f: &mut Fill,
    r: &mut Reserves,
    b: &mut Buckets,
    count: u32,
) -> Result<Placed, NoBucket>
    requires fit { AreFor r.old b.old }
    requires opens { AreOpen f.old r.old b.old }
    requires count { 1 ≤ count }
    ensures placed { IfOk result (λ p. Places p count f.old f.new r.old r.new b.old b.new) }
    ensures refused { IsErr result ↔ ((f.old ≡ []) × ((list_of Purpose.Plain r.old).buckets ≡ [])) }
    ensures why { IfErr result (λ e.
        e ≡ record { purpose = Purpose.Plain; none_len = 0; own_len = 0 }) }
    ensures same { OnErr result ((f.new ≡ f.old) × (r.new ≡ r.old) × (b.new ≡ b.old)) }
    ensures fit { AreFor r.new b.new }
    ensures opens { AreOpen f.new r.new b.new }
{
    let opened = match open_one(f, r, b) {
        Ok(opened) => opened,
        Err(none) => return Err(none),
    };
    Ok(f.cut(b, count, opened))
}
