//! What the definitions come to: each law is the contract of a function.
ghost use Rattle.std.specs.Prelude.{◌≡◌, ◌⊎◌, ◌≤◌, ℕ, List, Result, Some};
ghost use Rattle.bc_model.specs.Sector.{Image, Value};
ghost use Rattle.bc_disk.specs.Device.{DeviceModel, after_barrier, after_failed_write, after_write, next_count};
ghost use Rattle.bc_disk.specs.Disk.{IsKept, IsCounted, IsFailedWrite, StandsFor};
ghost use Rattle.bc_super.specs.declared.backing.BackingSuper.{BackingSuper};
ghost use Rattle.bc_super.specs.declared.cache.CacheSuper.{CacheSuper};
ghost use Rattle.bc_super.specs.declared.error.SuperError.{SuperError};
ghost use Rattle.bc_super.specs.Super.{IsBackingSuper, IsRefused};
ghost use Rattle.bc_super.specs.Cache.{IsCacheSuper, IsCacheRefused};
ghost use Rattle.bc_super.specs.Reading.{IsSuperBytes, call_of, after_call};
ghost use Rattle.bc_super.specs.Writing.{IsStored, count_after};

use bc_disk::disk::Disk;

/// Whatever bytes stand there, and however many sectors the device has, they are the superblock of a
/// backing device or refused, never both, and in one way only.
pub fn one_reading()
    ensures either { (bytes : List ℕ) (sectors : ℕ)
        → ((s : BackingSuper) × IsBackingSuper bytes sectors s)
        ⊎ ((e : SuperError) × IsRefused bytes sectors e) }
    ensures never_both { (bytes : List ℕ) (sectors : ℕ) (s : BackingSuper) (e : SuperError)
        → IsBackingSuper bytes sectors s → IsRefused bytes sectors e → ⊥ }
    ensures one_super { (bytes : List ℕ) (sectors : ℕ) (s t : BackingSuper)
        → IsBackingSuper bytes sectors s → IsBackingSuper bytes sectors t → s ≡ t }
    ensures one_cause { (bytes : List ℕ) (sectors : ℕ) (e f : SuperError)
        → IsRefused bytes sectors e → IsRefused bytes sectors f → e ≡ f }
{}

/// The same of a cache device.
pub fn one_cache_reading()
    ensures either { (bytes : List ℕ) (sectors : ℕ)
        → ((s : CacheSuper) × IsCacheSuper bytes sectors s)
        ⊎ ((e : SuperError) × IsCacheRefused bytes sectors e) }
    ensures never_both { (bytes : List ℕ) (sectors : ℕ) (s : CacheSuper) (e : SuperError)
        → IsCacheSuper bytes sectors s → IsCacheRefused bytes sectors e → ⊥ }
    ensures one_super { (bytes : List ℕ) (sectors : ℕ) (s t : CacheSuper)
        → IsCacheSuper bytes sectors s → IsCacheSuper bytes sectors t → s ≡ t }
    ensures one_cause { (bytes : List ℕ) (sectors : ℕ) (e f : SuperError)
        → IsCacheRefused bytes sectors e → IsCacheRefused bytes sectors f → e ≡ f }
{}

/// A device that tells what it holds has the bytes of one superblock, so whatever reads it reads the
/// same.
pub fn one_image<D: Disk>()
    ensures { (d : D) (held : Image) → (D.facts d).holds ≡ Some held
        → (xs ys : List ℕ) → IsSuperBytes xs (D.facts d) → IsSuperBytes ys (D.facts d) → xs ≡ ys }
{}

/// What reading a superblock says of a disk with at least 16 sectors is enough for a caller that
/// has a model: a disk that stood for it stands for the model that one read leaves, good or failed.
pub fn reading_stands<D: Disk>()
    ensures { (old new : D) (model : DeviceModel) (answer : Result BackingSuper SuperError)
        → StandsFor (D.facts old) model
        → IsKept (D.facts old) (D.facts new) → IsCounted (call_of answer) (D.facts old) (D.facts new)
        → StandsFor (D.facts new) (after_call (call_of answer) model) }
{}

/// So is what a write of a backing device's superblock says: the disk stands for the model that a
/// write of that sector and a barrier leave, or else for the one that a failed write of it leaves,
/// but for the count of calls.
pub fn writing_stands<D: Disk>()
    ensures stored { (old new : D) (model : DeviceModel) (at : ℕ) (values : List Value)
        → StandsFor (D.facts old) model → IsStored at values (D.facts old) (D.facts new)
        → (D.facts new).calls ≡ count_after 2 (D.facts old).calls
        → (D.facts new).faults ≡ (D.facts old).faults
        → StandsFor (D.facts new) (after_barrier (after_write at values model)) }
    ensures failed { (old new : D) (model : DeviceModel) (at : ℕ) (values : List Value) (k : ℕ)
        → StandsFor (D.facts old) model → IsFailedWrite at values (D.facts old) (D.facts new)
        → (D.facts new).calls ≡ count_after k (D.facts old).calls
        → (D.facts new).faults ≡ next_count (D.facts old).faults
        → let failed = after_failed_write at values model in
        StandsFor (D.facts new) (record failed { calls = count_after k model.calls }) }
{}
