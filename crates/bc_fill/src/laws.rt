//! Places are fresh.
ghost use Rattle.std.specs.Prelude.{ℕ, List, [], ◌∷◌, ◌++◌, ◌<◌, All, true};
ghost use Rattle.bc_bucket.specs.Bucket.{with_held};
ghost use Rattle.bc_bucket.specs.Buckets.{Buckets, changed};
ghost use Rattle.bc_alloc.specs.Buckets.{AreFor};
ghost use Rattle.bc_alloc.specs.Reserves.{Reserves, IsInOrder, TakesFirst};
ghost use Rattle.bc_alloc.specs.declared.purpose.Purpose.{Purpose};
ghost use Rattle.bc_fill.specs.declared.fill.Open.{Open};
ghost use Rattle.bc_fill.specs.declared.fill.Placed.{Placed};
ghost use Rattle.bc_fill.specs.Fill.{just_opened, AreOpen, IsCut};
ghost use Rattle.bc_fill.specs.Fresh.{AreGone, IsApart, IsFreeIn, IsOf, IsOutside};

/// Each sector of a place was free before and isn't any more, and no sector becomes free by it. So
/// as long as no bucket is opened anew, which a bucket that was raised alone is, no sector is
/// placed twice.
pub fn places_are_fresh()
    ensures given { (fs gs : List Open) (r : Reserves) (b d : Buckets) (count : ℕ) (p : Placed)
        → AreOpen fs r b → IsCut fs gs b d count p → (s : ℕ) → IsOf p s → IsFreeIn b.size fs s }
    ensures gone { (fs gs : List Open) (r : Reserves) (b d : Buckets) (count : ℕ) (p : Placed)
        → AreOpen fs r b → IsCut fs gs b d count p → (s : ℕ) → IsOf p s → IsFreeIn b.size gs s → ⊥ }
    ensures others { (fs gs : List Open) (b d : Buckets) (count : ℕ) (p : Placed)
        → IsCut fs gs b d count p → (s : ℕ) → IsFreeIn b.size gs s → IsFreeIn b.size fs s }
{}

/// By a list of the places that were given, none of which is still to be placed: a new place has no
/// sector of any of them, and the list with it is such a list again. So is the list when a bucket is
/// opened of which it has no place, as none of this use of the bucket is there then.
pub fn no_sector_is_given_twice()
    ensures apart { (fs gs : List Open) (r : Reserves) (b d : Buckets) (count : ℕ) (p : Placed)
        (ps : List Placed) → AreOpen fs r b → IsCut fs gs b d count p → AreGone b.size fs ps
        → All (IsApart p) ps }
    ensures more { (fs gs : List Open) (r : Reserves) (b d : Buckets) (count : ℕ) (p : Placed)
        (ps : List Placed) → AreOpen fs r b → IsCut fs gs b d count p → AreGone b.size fs ps
        → AreGone b.size gs (ps ++ p ∷ []) }
    ensures opened { (size k : ℕ) (fs : List Open) (ps : List Placed) → AreGone size fs ps
        → All (IsOutside size k) ps → AreGone size (fs ++ just_opened k ∷ []) ps }
    ensures begins { (size : ℕ) (fs : List Open) → AreGone size fs [] }
{}

/// A bucket that was taken may be opened behind the ones that are open.
pub fn taken_bucket_may_be_opened()
    ensures { (fs : List Open) (r q : Reserves) (b : Buckets) (p : Purpose) (k : ℕ)
        → IsInOrder r → AreFor r b → 0 < b.size → AreOpen fs r b → TakesFirst p k r q
        → AreOpen (fs ++ just_opened k ∷ []) q (changed (with_held true) k b) }
{}
