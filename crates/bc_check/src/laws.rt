//! What the definitions come to: each law is the contract of a function.
ghost use Rattle.std.specs.Prelude.{◌≡◌, ◌⊎◌, ℕ};
ghost use Rattle.bc_disk.specs.declared.geometry.Geometry.{Geometry};
ghost use Rattle.bc_image.specs.Formatted.{IsFormatted};
ghost use Rattle.bc_image.specs.NewPair.{new_pair};
ghost use Rattle.bc_image.specs.Pair.{Pair, HasBacking};
ghost use Rattle.bc_image.specs.Sound.{HasSuperblocks, IsSound};
ghost use Rattle.bc_replay.specs.declared.error.OpenError.{OpenError};
ghost use Rattle.bc_super.specs.Division.{IsPassThrough};
ghost use Rattle.bc_super.specs.declared.backing.BackingSuper.{BackingSuper};
ghost use Rattle.bc_super.specs.declared.cache.CacheSuper.{CacheSuper};
ghost use Rattle.bc_check.specs.Through.{through_pair};
ghost use Rattle.bc_check.specs.Verdict.{IsRefusal, IsVerdict};
ghost use Rattle.bc_check.specs.declared.verdict.Verdict.{Verdict};
ghost use Rattle.bc_check.specs.declared.verdict.Verdict.TheVariants as verdicts;

/// Of a pair one verdict holds at most, and none of one that is refused.
pub fn one_verdict()
    ensures one { (p : Pair) (a b : Verdict) → IsVerdict p a → IsVerdict p b → a ≡ b }
    ensures never_refused { (p : Pair) (a : Verdict) (why : OpenError) → IsVerdict p a
        → IsRefusal p why → ⊥ }
{}

/// A pair is sound exactly where the verdict is `PassThrough` or `Sound`.
pub fn says_sound()
    ensures through { (p : Pair) → IsVerdict p verdicts.PassThrough → IsSound p }
    ensures counted { (p : Pair) (dirty clean : ℕ) → IsVerdict p (verdicts.Sound dirty clean)
        → IsSound p }
    ensures sound { (p : Pair) → IsSound p → IsVerdict p verdicts.PassThrough
        ⊎ ((dirty clean : ℕ) × IsVerdict p (verdicts.Sound dirty clean)) }
{}

/// A pair that was made anew is sound, and no sector has its data on the cache device. One of which
/// the backing device asks for no cache is passed through. There are both, byte by byte.
pub fn verdicts_hold()
    ensures anew { (p : Pair) (b : BackingSuper) (c : CacheSuper) (g : Geometry)
        → IsFormatted p b c g → HasSuperblocks b c → IsVerdict p (verdicts.Sound 0 0) }
    ensures through { (p : Pair) (b : BackingSuper) → HasBacking p b → IsPassThrough b
        → IsVerdict p verdicts.PassThrough }
    ensures new_example { IsVerdict new_pair (verdicts.Sound 0 0) }
    ensures through_example { IsVerdict through_pair verdicts.PassThrough }
{}
