//! What the definitions of the history come to: each law is the contract of a function.
ghost use Rattle.std.specs.Prelude.{◌≡◌, ◌⊎◌, ◌↔◌, ◌+◌, ◌<◌, ◌≤◌, ℕ, List, ◌∷◌, ◌++◌, max, reverse, Some};
ghost use Rattle.bc_model.specs.Sector.{Value, Image, Gives, at_run};
ghost use Rattle.bc_model.specs.History.{now, IsLegal, Allowed, AllowedFrom, Silent, count_from, flushed, forced, written_by};
ghost use Rattle.bc_model.specs.InOrder.{now_of, IsLegalOf};
ghost use Rattle.bc_model.specs.declared.history.Entry.{Entry};

/// A sector may always show its last write.
pub fn now_is_allowed()
    ensures { (opening : Image) (H : List Entry) (s : ℕ) → Allowed opening H s (now opening H s) }
{}

/// Once a flush is acknowledged, a sector that nothing has been written to since it began, nor tried,
/// may show its last write alone.
pub fn flush_covers()
    ensures { (opening : Image) (worker line : ℕ) (newer between older : List Entry) (s : ℕ) (v : Value)
        → let H = newer ++ Entry.FlushDone worker line ∷ (between ++ Entry.FlushFrom worker line ∷ older)
        in Silent s newer → Silent s between → count_from worker line H ≡ 1
        → Allowed opening H s v → v ≡ now opening H s }
{}

/// Once a forced write is acknowledged, a sector of it that nothing has been written to since, nor
/// tried, may show its last write alone.
pub fn forced_write_covers()
    ensures { (opening : Image) (worker line first count : ℕ) (values : List Value) (newer between older : List Entry) (s : ℕ) (v : Value)
        → let H = newer ++ Entry.Durable worker line first count ∷ (between ++ Entry.Write worker line first values ∷ older)
        in first ≤ s → s < first + count → Silent s newer → Silent s between
        → Allowed opening H s v → v ≡ now opening H s }
{}

/// An acknowledged forced write covers its own sectors, up to its write, and says nothing of others.
pub fn forced_write_is_exact()
    ensures elsewhere { (opening : Image) (worker line first count : ℕ) (H : List Entry) (s : ℕ) (v : Value)
        → (s < first) ⊎ (first + count ≤ s)
        → Allowed opening (Entry.Durable worker line first count ∷ H) s v ↔ Allowed opening H s v }
    ensures within { (opening : Image) (worker line first count : ℕ) (H : List Entry) (s : ℕ) (v : Value)
        → first ≤ s → s < first + count
        → Allowed opening (Entry.Durable worker line first count ∷ H) s v
        ↔ AllowedFrom (max (flushed H) (max (written_by worker line first H) (forced H s))) opening H s v }
{}

/// A write adds what it gives, and takes nothing away.
pub fn write_adds()
    ensures { (opening : Image) (worker line first : ℕ) (values : List Value) (H : List Entry) (s : ℕ) (v : Value)
        → (at_run first values s ≡ Some v) ⊎ Allowed opening H s v
        → Allowed opening (Entry.Write worker line first values ∷ H) s v }
{}

/// A write that failed adds what it might have given, and takes nothing away.
pub fn tried_adds()
    ensures { (opening : Image) (first : ℕ) (values : List Value) (H : List Entry) (s : ℕ) (v : Value)
        → (at_run first values s ≡ Some v) ⊎ Allowed opening H s v
        → Allowed opening (Entry.Tried first values ∷ H) s v }
{}

/// A flush that covers more entries allows no more values.
pub fn later_flush_allows_less()
    ensures { (opening : Image) (early late : ℕ) (H : List Entry) (s : ℕ) (v : Value)
        → early ≤ late → AllowedFrom late opening H s v → AllowedFrom early opening H s v }
{}

/// A legal history stays legal when the present is read.
pub fn read_of_now_is_legal()
    ensures { (opening : Image) (worker line first : ℕ) (values : List Value) (H : List Entry)
        → IsLegal opening H → Gives first values (λ s v. v ≡ now opening H s)
        → IsLegal opening (Entry.Read worker line first values ∷ H) }
{}

/// The present and what is legal are the same whichever end of the history comes first.
pub fn orders_agree()
    ensures now { (opening : Image) (H : List Entry) (s : ℕ) → now_of opening H s ≡ now opening (reverse H) s }
    ensures legal { (opening : Image) (H : List Entry) → IsLegalOf opening H ↔ IsLegal opening (reverse H) }
{}
