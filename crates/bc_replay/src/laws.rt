//! What the definitions come to: each law is the contract of a function.
ghost use Rattle.std.specs.Prelude.{◌≡◌};
ghost use Rattle.bc_disk.specs.Gens.{Gens};
ghost use Rattle.bc_disk.specs.declared.geometry.Geometry.{Geometry};
ghost use Rattle.bc_entries.specs.Journal.{Journal};
ghost use Rattle.bc_image.specs.Pair.{Pair};
ghost use Rattle.bc_image.specs.Reading.{View, IsView};
ghost use Rattle.bc_image.specs.Sound.{IsSound, ServesAlone};
ghost use Rattle.bc_super.specs.declared.backing.BackingSuper.{BackingSuper};
ghost use Rattle.bc_super.specs.declared.cache.CacheSuper.{CacheSuper};
ghost use Rattle.bc_replay.specs.declared.error.OpenError.{OpenError};
ghost use Rattle.bc_replay.specs.First.{IsFirstHead};
ghost use Rattle.bc_replay.specs.Heads.{HasHeads};
ghost use Rattle.bc_replay.specs.Survey.{IsFirst, IsOpenable};

/// Of a pair one refusal at most is the first, and none of what its index stands on where its
/// superblocks, its journal, its generations and its table of uuids were found.
pub fn one_refusal()
    ensures one { (p : Pair) (e f : OpenError) → IsFirst p e → IsFirst p f → e ≡ f }
    ensures never_both { (p : Pair) (b : BackingSuper) (c : CacheSuper) (g : Geometry) (j : Journal)
        (gens : Gens) (e : OpenError) → HasHeads p b c g j gens → IsFirstHead p e → ⊥ }
{}

/// A pair that has the parts of soundness which need no look at its data isn't refused, and so no
/// sound pair is but one of which the backing device serves alone.
pub fn sound_pairs_are_opened()
    ensures openable { (p : Pair) (v : View) (e : OpenError) → IsView p v → IsOpenable p v
        → IsFirst p e → ⊥ }
    ensures sound { (p : Pair) (e : OpenError) → IsSound p → (ServesAlone p → ⊥)
        → IsFirst p e → ⊥ }
{}
