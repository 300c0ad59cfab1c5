//! What the order of victims says.
ghost use Rattle.std.specs.Prelude.{◌≡◌, ◌⊎◌, ℕ, ◌<◌, List, [], ◌∷◌, ◌++◌};
ghost use Rattle.bc_bucket.specs.Bucket.{raised};
ghost use Rattle.bc_bucket.specs.Buckets.{Buckets, changed};
ghost use Rattle.bc_alloc.specs.Reserves.{Reserves, wanted};
ghost use Rattle.bc_alloc.specs.Victims.{AreVictims, IsCandidate, IsVictim};

/// Reserves and buckets have one list of victims, so that what a refill raises, and in which order, is a
/// function of them.
pub fn victims_are_one()
    ensures { (r : Reserves) (b : Buckets) (vs ws : List ℕ)
        → AreVictims r b vs → AreVictims r b ws → vs ≡ ws }
{}

/// What `victim` answers is the first one that a refill would raise, and it answers none where a refill
/// would raise none.
pub fn victim_is_the_first()
    ensures first { (r : Reserves) (b : Buckets) (vs : List ℕ) (v : ℕ) → AreVictims r b vs
        → 0 < wanted r → IsVictim r b v → (rest : List ℕ) × (vs ≡ v ∷ rest) }
    ensures none { (r : Reserves) (b : Buckets) (vs : List ℕ) → AreVictims r b vs
        → (wanted r ≡ 0) ⊎ ((k : ℕ) → IsCandidate r b k → ⊥) → vs ≡ [] }
{}

/// Once the first victim is raised, the others are the victims: so buckets that are raised one by one, each
/// the victim then, are those of a refill.
pub fn victims_are_raised_one_by_one()
    ensures { (r : Reserves) (b : Buckets) (v : ℕ) (vs : List ℕ) → AreVictims r b (v ∷ vs)
        → AreVictims (record r { raised = r.raised ++ v ∷ [] }) (changed raised v b) vs }
{}
