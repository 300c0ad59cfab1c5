//! What is made of a pair, in plain terms: each law is the contract of a function.
ghost use Rattle.std.specs.Prelude.{◌≡◌, ℕ, ◌+◌, ◌≤◌};
ghost use Rattle.bc_image.specs.Shown.{IsShown};
ghost use Rattle.bc_image.specs.Sound.{IsSound};
ghost use Rattle.bc_pair.specs.Found.{IsPair, OfEachPair};
ghost use Rattle.bc_model.specs.Sector.{Image};
ghost use Rattle.bc_super.specs.Cache.{IsInitialised};
ghost use Rattle.bc_super.specs.Layout.{IsLaidOut};
ghost use Rattle.bc_super.specs.Super.{IsDataOffset, IsMode, IsState, IsUsable, mode_number, state_number};
ghost use Rattle.bc_super.specs.declared.backing.BackingSuper.{BackingSuper};
ghost use Rattle.bc_super.specs.declared.cache.CacheSuper.{CacheSuper};
ghost use Rattle.bc_super.specs.declared.layout.Layout.{Layout};
ghost use Rattle.bc_mode.specs.declared.mode.Mode.{Mode};
ghost use Rattle.bc_super.specs.declared.state.BackingState.TheVariants as states;
ghost use Rattle.bc_disk.specs.declared.geometry.Geometry.{Geometry};
ghost use Rattle.bc_pair.specs.Records.{IsRecordSector};
ghost use Rattle.bc_pair.specs.Made.{IsMadeImage, IsUnused, IsWrittenSector, adopted_backing, adopted_cache, new_backing, new_cache};
ghost use Rattle.bc_pair.specs.declared.pair.NewPair.{NewPair};

use bc_disk::disk::Disk;

/// In a new pair the cache is set up and has a journal, and the backing device of the same set is
/// clean, of the mode that it was to have, and has its data where that was to begin.
pub fn new_pair_is_set_up()
    ensures cache { (p : NewPair) (sectors : ℕ) (l : Layout) → IsLaidOut sectors l → IsInitialised (new_cache p l) }
    ensures one_set { (p : NewPair) (l : Layout) → (new_backing p).set_uuid ≡ (new_cache p l).set_uuid }
    ensures mode { (p : NewPair) → IsMode (mode_number (new_backing p).flags) p.mode }
    ensures state { (p : NewPair) → IsState (state_number (new_backing p).flags) states.Clean }
    ensures data { (p : NewPair) (sectors : ℕ) → IsDataOffset sectors p.offset
        → IsUsable sectors (new_backing p) × ((new_backing p).data_offset ≡ p.offset) }
{}

/// A pair that is adopted comes to the same, but keeps its mode.
pub fn adopted_pair_is_set_up()
    ensures cache { (c : CacheSuper) (b : BackingSuper) (sectors : ℕ) (l : Layout)
        → IsUnused c b → IsLaidOut sectors l → IsInitialised (adopted_cache c l) }
    ensures one_set { (c : CacheSuper) (b : BackingSuper) (l : Layout)
        → (adopted_backing c b).set_uuid ≡ (adopted_cache c l).set_uuid }
    ensures mode { (c : CacheSuper) (b : BackingSuper) (mode : Mode)
        → IsMode (mode_number b.flags) mode → IsMode (mode_number (adopted_backing c b).flags) mode }
    ensures state { (c : CacheSuper) (b : BackingSuper)
        → IsUnused c b → IsState (state_number (adopted_backing c b).flags) states.Clean }
{}

/// A cache device that was made holds what it held before in each sector that isn't one of the
/// superblock or of the records, which stand behind it.
pub fn what_is_made()
    ensures others { (g : Geometry) (c : CacheSuper) (b : BackingSuper) (old new : Image) (s : ℕ)
        → IsMadeImage g c b old new → (IsWrittenSector g s → ⊥) → new s ≡ old s }
    ensures first { (g : Geometry) (s : ℕ) → IsRecordSector g s → 64 ≤ s }
{}

/// A pair that was made is sound, and shows the data of the backing device as it was, both as the
/// devices hold it and however a crash leaves it.
pub fn made_pair_is_sound<C: Disk, B: Disk>()
    ensures sound { (g : Geometry) (c : CacheSuper) (b : BackingSuper) (cache : C) (backing : B)
        → IsPair g c b (C.facts cache) (B.facts backing) → OfEachPair IsSound (C.facts cache) (B.facts backing) }
    ensures shown { (g : Geometry) (c : CacheSuper) (b : BackingSuper) (cache : C) (backing : B)
        → IsPair g c b (C.facts cache) (B.facts backing)
        → OfEachPair (λ p. IsShown p (λ s. p.backing (b.data_offset + s)))
        (C.facts cache) (B.facts backing) }
{}
