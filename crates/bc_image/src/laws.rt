//! What the definitions come to: each law is the contract of a function.
ghost use Rattle.std.specs.Prelude.{◌≡◌, ◌+◌, ◌-◌, ◌<◌, ◌≤◌, ℕ, List, AllPairs, Some};
ghost use Rattle.bc_model.specs.Sector.{Image};
ghost use Rattle.bc_disk.specs.declared.geometry.Geometry.{Geometry};
ghost use Rattle.bc_record.specs.Sectors.{AgreeOn};
ghost use Rattle.bc_jset.specs.Entries.{FoundEntry, StandIn, AreEntries, bucket_start};
ghost use Rattle.bc_super.specs.Division.{IsPassThrough};
ghost use Rattle.bc_super.specs.declared.backing.BackingSuper.{BackingSuper};
ghost use Rattle.bc_super.specs.Reading.{ReadsCache, ReadsSuper};
ghost use Rattle.bc_image.specs.Pair.{Pair, HasBacking, HasCache};
ghost use Rattle.bc_image.specs.Reading.{Reading, IsReading, View, IsView};
ghost use Rattle.bc_image.specs.Rests.{SameRest, SameButJournal};
ghost use Rattle.bc_image.specs.Shown.{IsShown};
ghost use Rattle.bc_image.specs.Sound.{HasPointers, HasSuperblocks, IsSound, IsSoundButForItsNumber};
ghost use Rattle.bc_image.specs.Formatted.{IsFormatted};
ghost use Rattle.bc_image.specs.NewPair.{new_pair};
ghost use Rattle.bc_image.specs.Parts.{Part, HasAll, LacksOnly};
ghost use Rattle.bc_image.specs.Pointers.{LiesInData};
ghost use Rattle.bc_image.specs.Children.{children_of, last_ending, unless_bare};
ghost use Rattle.bc_key.specs.declared.key.Key.{Key};
ghost use Rattle.bc_key.specs.Key.{ptr_at, place_at, start_of, Covers};
ghost use Rattle.bc_record.specs.Places.{bucket_at};
ghost use Rattle.bc_super.specs.declared.cache.CacheSuper.{CacheSuper};

use bc_disk::disk::Disk;

/// The superblocks of the images that two devices hold are those that reads of the devices give, and so
/// is the uuid table and the chain of generations by the laws of their crates.
pub fn superblocks_are_read<C: Disk, B: Disk>()
    ensures cache { (d : C) (p : Pair) (s : CacheSuper) → (C.facts d).holds ≡ Some p.cache
        → (C.facts d).sectors ≡ p.cache_sectors → 16 ≤ p.cache_sectors
        → ReadsCache (C.facts d) s → HasCache p s }
    ensures backing { (d : B) (p : Pair) (s : BackingSuper) → (B.facts d).holds ≡ Some p.backing
        → (B.facts d).sectors ≡ p.backing_sectors → 16 ≤ p.backing_sectors
        → ReadsSuper (B.facts d) s → HasBacking p s }
{}

/// A cache device is read in one way at most, a pair has one view, and it shows one thing.
pub fn one_shown()
    ensures reading { (g : Geometry) (image : Image) (a b : Reading)
        → IsReading g image a → IsReading g image b → a ≡ b }
    ensures view { (p : Pair) (a b : View) → IsView p a → IsView p b → a ≡ b }
    ensures shown { (p : Pair) (a b : Image) → IsShown p a → IsShown p b → (s : ℕ) → a s ≡ b s }
{}

/// A pair of which the backing device serves alone shows that device's data, and is sound.
pub fn through_shows_the_backing_device()
    ensures shown { (p : Pair) (b : BackingSuper) → HasBacking p b → IsPassThrough b
        → IsShown p (λ s. p.backing (b.data_offset + s)) }
    ensures sound { (p : Pair) (b : BackingSuper) → HasBacking p b → IsPassThrough b → IsSound p }
{}

/// What is read of a cache device rests on its journal, on the buckets of the chain, and on the
/// sectors of the nodes.
pub fn reading_rests()
    ensures { (g : Geometry) (a b : Image) (r : Reading) → IsReading g a r
        → AgreeOn a b (bucket_start g 0) (bucket_start g g.journal) → SameRest g a b r
        → IsReading g b r }
{}

/// An entry that wasn't written whole doesn't count: where the same entries are found in the journal of
/// another image as in one in which it was never written, and the rest is the same, both are read
/// alike, and such a pair shows what the entry before it shows.
pub fn torn_entry_does_not_count()
    ensures entries { (g : Geometry) (a b : Image) (all es : List FoundEntry)
        → StandIn g a g.journal all → StandIn g b g.journal all
        → AreEntries g a es → AreEntries g b es }
    ensures reading { (g : Geometry) (a b : Image) (all : List FoundEntry) (r : Reading)
        → StandIn g a g.journal all → StandIn g b g.journal all
        → IsReading g a r → SameRest g a b r → IsReading g b r }
    ensures shown { (p : Pair) (torn : Image) (v : View) (size : ℕ) (all : List FoundEntry)
        (shown : Image) → IsView p v → (IsPassThrough v.backing → ⊥)
        → HasPointers v.geometry size v.reading → SameButJournal v.geometry p.cache torn
        → StandIn v.geometry p.cache v.geometry.journal all
        → StandIn v.geometry torn v.geometry.journal all
        → IsShown p shown → IsShown (record p { cache = torn }) shown }
{}

/// A pair that was made anew, with an empty index over the data of the backing device, is sound and
/// shows that data.
pub fn formatted_shows_the_backing_device()
    ensures sound { (p : Pair) (b : BackingSuper) (c : CacheSuper) (g : Geometry)
        → IsFormatted p b c g → HasSuperblocks b c → IsSound p }
    ensures shown { (p : Pair) (b : BackingSuper) (c : CacheSuper) (g : Geometry)
        → IsFormatted p b c g → HasSuperblocks b c
        → IsShown p (λ s. p.backing (b.data_offset + s)) }
{}

/// There is a pair that was made anew, byte by byte: so there is a sound pair.
pub fn new_pair()
    ensures { (b : BackingSuper) × (c : CacheSuper) × (g : Geometry) × IsFormatted new_pair b c g
        × HasSuperblocks b c × IsSound new_pair }
{}

/// A place by a pointer into the data buckets counts no further than the device: it lies in the bucket
/// into which the pointer points.
pub fn places_lie_in_the_bucket()
    ensures { (g : Geometry) (key : Key) (i s : ℕ) → LiesInData g (ptr_at key i) key.size
        → Covers key s
        → (place_at key i s ≡ (ptr_at key i).offset + (s - start_of key))
        × (bucket_at g (place_at key i s) ≡ bucket_at g (ptr_at key i).offset) }
{}

/// The children of an inner node stand by their ends, each end once, and each is the last key with its
/// end, if that one has a pointer.
pub fn children_by_end()
    ensures order { (keys : List Key) → AllPairs (λ a b. a.end < b.end) (children_of keys) }
    ensures last { (keys : List Key) (end : ℕ)
        → last_ending (children_of keys) end ≡ unless_bare (last_ending keys end) }
{}

/// The parts of soundness can hold together, and none follows from the others: for each there is
/// something that is seen as a pair and lacks that part alone.
pub fn each_part_counts()
    ensures all { HasAll }
    ensures alone { (part : Part) → LacksOnly part }
{}

/// A sound pair is sound but for its number.
pub fn sound_but_for_its_number()
    ensures { (p : Pair) → IsSound p → IsSoundButForItsNumber p }
{}
