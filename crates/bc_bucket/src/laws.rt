//! What a walk's records mean.
ghost use Rattle.std.specs.Prelude.{ℕ, List, [], ◌∷◌, ◌++◌};
ghost use Rattle.bc_bucket.specs.declared.walk.Found.{Found};
ghost use Rattle.bc_bucket.specs.declared.walk.Reference.{Reference};
ghost use Rattle.bc_bucket.specs.Meaning.{IsFound};
ghost use Rattle.bc_bucket.specs.Walk.{counted, none_found};

/// A walk's record of a bucket, whose generation stays, says what the keys that it saw say: the
/// mark and the sectors of those that aren't stale, and the oldest generation of all. So it is
/// after no key, and after one more.
pub fn walk_counts()
    ensures none { (own : ℕ) → IsFound own [] none_found }
    ensures more { (own : ℕ) (refs : List Reference) (r : Reference) (found : Found)
        → IsFound own refs found → IsFound own (refs ++ r ∷ []) (counted own r found) }
{}
