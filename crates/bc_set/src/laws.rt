//! What the definitions come to: each law is the contract of a function.
ghost use Rattle.std.specs.Prelude.{◌≡◌, ◌↔◌, ◌+◌, ◌*◌, ◌<◌, ◌≤◌, ℕ, List, [], ◌∷◌, ◌++◌, length, replicate, slice_range};
ghost use Rattle.bc_model.specs.Sector.{Image, values_of};
ghost use Rattle.bc_model.specs.Pattern.{zeros};
ghost use Rattle.bc_disk.specs.Bytes.{image_of};
ghost use Rattle.bc_disk.specs.declared.geometry.Geometry.{Geometry};
ghost use Rattle.bc_record.specs.Sectors.{Has, AgreeOn};
ghost use Rattle.bc_record.specs.Kind.{NoneFound, AreFound, behind};
ghost use Rattle.bc_record.specs.Codec.{Decided};
ghost use Rattle.bc_set.specs.declared.error.SetError.{SetError};
ghost use Rattle.bc_set.specs.declared.set.Set.{Set};
ghost use Rattle.bc_set.specs.declared.set.SetKind.{SetKind};
ghost use Rattle.bc_set.specs.SetBytes.{IsSet, IsRefused, StandsAt, bytes_of};
ghost use Rattle.bc_set.specs.Records.{set_kind, set_sectors, SetFound, numbered_kind, AreNodeSets};
ghost use Rattle.bc_set.specs.Example.{example_bytes};

/// Bytes begin with one set or with none, or they are refused for one reason at most, and never both.
pub fn one_reading()
    ensures either { (start magic : ℕ) (kind : SetKind) (bytes : List ℕ)
        → Decided ((s : Set) × IsSet start magic kind bytes s) }
    ensures one_set { (start magic : ℕ) (kind : SetKind) (bytes : List ℕ) (s t : Set)
        → IsSet start magic kind bytes s → IsSet start magic kind bytes t → s ≡ t }
    ensures never_both { (start magic : ℕ) (kind : SetKind) (bytes : List ℕ) (s : Set)
        (e : SetError) → IsSet start magic kind bytes s
        → IsRefused start magic kind bytes e → ⊥ }
    ensures one_cause { (start magic : ℕ) (kind : SetKind) (bytes : List ℕ) (e f : SetError)
        → IsRefused start magic kind bytes e → IsRefused start magic kind bytes f → e ≡ f }
{}

/// A set lies within the bytes in which it stands, and rests on its own bytes alone: it stays
/// whatever the others become.
pub fn set_stays()
    ensures fits { (start magic : ℕ) (kind : SetKind) (bytes : List ℕ) (place : ℕ) (s : Set)
        → StandsAt start magic kind bytes place s → place + bytes_of s ≤ length bytes }
    ensures stays { (start magic : ℕ) (kind : SetKind) (old new : List ℕ) (place : ℕ) (s : Set)
        → StandsAt start magic kind old place s
        → slice_range new place (place + bytes_of s) ≡ slice_range old place (place + bytes_of s)
        → StandsAt start magic kind new place s }
{}

/// No set stands where 32 bytes are zero, whatever the magic is: by version 0 the checksum of such a
/// header isn't zero.
pub fn zeros_are_no_set()
    ensures { (start magic : ℕ) (kind : SetKind) (bytes : List ℕ) (place : ℕ) (s : Set)
        → slice_range bytes place (place + 32) ≡ replicate 32 0
        → StandsAt start magic kind bytes place s → ⊥ }
{}

/// There is a set: these bytes are one, with one extent.
pub fn example()
    ensures { (s : Set) × IsSet 0x80003 1 SetKind.Extents example_bytes s
        × (s.seq ≡ 65537) × (length s.keys ≡ 1) }
{}

/// Sets in an image: one at most is found at a place, it takes some sectors and lies before the end,
/// it rests on its own sectors alone, and what was written is found, whatever follows it.
pub fn sets_in_sectors()
    ensures one { (g : Geometry) (start : ℕ) (kind : SetKind) (image : Image) (end place : ℕ)
        (s t : Set) → SetFound g start kind image end place s
        → SetFound g start kind image end place t → s ≡ t }
    ensures some { (g : Geometry) (s : Set) → 0 < set_sectors g s }
    ensures fits { (g : Geometry) (start : ℕ) (kind : SetKind) (image : Image)
        (end place blocks : ℕ) (s : Set) → end ≡ place + g.block * blocks
        → SetFound g start kind image end place s → place + set_sectors g s ≤ end }
    ensures stays { (g : Geometry) (start : ℕ) (kind : SetKind) (a b : Image) (end place : ℕ)
        (s : Set) → SetFound g start kind a end place s
        → AgreeOn a b place (place + set_sectors g s) → place + set_sectors g s ≤ end
        → SetFound g start kind b end place s }
    ensures reads_back { (g : Geometry) (start : ℕ) (kind : SetKind) (image : Image)
        (end place n : ℕ) (bytes : List ℕ) (s : Set) → length bytes ≡ 512 * n
        → IsSet start g.set_magic kind bytes s → Has image place (values_of bytes)
        → place + n ≤ end → SetFound g start kind image end place s }
    ensures zeros { (g : Geometry) (start : ℕ) (kind : SetKind) (image : Image)
        (end place : ℕ) (s : Set) → image place ≡ zeros
        → SetFound g start kind image end place s → ⊥ }
{}

/// Sets that stand from a place on stay where their sectors do, and what is found behind them follows
/// them, also where that was written over.
pub fn sets_go_on()
    ensures { (g : Geometry) (start : ℕ) (kind : SetKind) (a b : Image) (end place : ℕ)
        (es more rest : List Set) → AreFound (set_kind g start kind) a end place (es ++ more)
        → AgreeOn a b place (behind (set_kind g start kind) place es)
        → behind (set_kind g start kind) place es ≤ end
        → AreFound (set_kind g start kind) b end (behind (set_kind g start kind) place es) rest
        → AreFound (set_kind g start kind) b end place (es ++ rest) }
{}

/// The sets of a node: each image has one list of them and no other, it rests on the node's sectors
/// alone, and behind sets that stay follow those with their number that are found there, also where
/// that was written over. A set behind which none is found stands alone.
pub fn node_sets()
    ensures exists { (g : Geometry) (start : ℕ) (kind : SetKind) (image : Image)
        (end place blocks : ℕ) → end ≡ place + g.block * blocks
        → (ss : List Set) × AreNodeSets g start kind image end place ss }
    ensures one { (g : Geometry) (start : ℕ) (kind : SetKind) (image : Image) (end place : ℕ)
        (ss ts : List Set) → AreNodeSets g start kind image end place ss
        → AreNodeSets g start kind image end place ts → ss ≡ ts }
    ensures stays { (g : Geometry) (start : ℕ) (kind : SetKind) (a b : Image) (end place : ℕ)
        (ss : List Set) → AgreeOn a b place end → AreNodeSets g start kind a end place ss
        → AreNodeSets g start kind b end place ss }
    ensures goes_on { (g : Geometry) (start : ℕ) (kind : SetKind) (a b : Image)
        (end place : ℕ) (s : Set) (ss more rest : List Set)
        → AreNodeSets g start kind a end place (s ∷ ss ++ more)
        → AgreeOn a b place (behind (set_kind g start kind) place (s ∷ ss))
        → behind (set_kind g start kind) place (s ∷ ss) ≤ end
        → AreFound (numbered_kind g start kind s.seq) b end
        (behind (set_kind g start kind) place (s ∷ ss)) rest
        → AreNodeSets g start kind b end place (s ∷ ss ++ rest) }
    ensures alone { (g : Geometry) (start : ℕ) (kind : SetKind) (image : Image)
        (end place : ℕ) (s : Set) → SetFound g start kind image end place s
        → NoneFound (set_kind g start kind) image end (place + set_sectors g s)
        → AreNodeSets g start kind image end place (s ∷ []) }
{}

/// In the image of bytes a set is found exactly where it stands in the bytes and ends before the end.
pub fn found_is_spelled()
    ensures { (g : Geometry) (start : ℕ) (kind : SetKind) (bytes : List ℕ) (end place : ℕ)
        (s : Set) → place ≤ end → 512 * end ≤ length bytes
        → SetFound g start kind (image_of bytes) end place s
        ↔ (StandsAt start g.set_magic kind bytes (512 * place) s
        × (512 * place + bytes_of s ≤ 512 * end)) }
{}
