//! What the definitions come to: each law is the contract of a function.
ghost use Rattle.std.specs.Prelude.{◌≡◌, ◌⊎◌, ℕ, ◌+◌, ◌≤◌, List, [], ◌∷◌, ◌++◌, ◌*◌, length, take};
ghost use Rattle.bc_model.specs.Sector.{Image, values_of};
ghost use Rattle.bc_record.specs.Sectors.{Has};
ghost use Rattle.bc_disk.specs.declared.geometry.Geometry.{Geometry};
ghost use Rattle.bc_set.specs.declared.set.SetKind.{SetKind};
ghost use Rattle.bc_set.specs.SetBytes.{AreSetKeys};
ghost use Rattle.bc_set.specs.declared.set.Set.{Set};
ghost use Rattle.bc_set.specs.Records.{set_sectors, SetFound};
ghost use Rattle.bc_disk.specs.Disk.{Overwritten, Torn};
ghost use Rattle.bc_node.specs.Sets.{AreSetsFrom, HasSets, IsClear, MayLeave, NoneByChance, behind_sets};
ghost use Rattle.bc_node.specs.Writing.{HasSet, put_values};

/// The sets of a node lie within it.
pub fn sets_lie_within()
    ensures { (g : Geometry) (word : ℕ) (kind : SetKind) (at : ℕ) (image : Image) (ss : List Set)
        → AreSetsFrom g word kind at image ss
        → behind_sets g word kind at ss ≤ at + g.node_sectors }
{}

/// Whatever a crash leaves while a set is written behind a node's sets, a reader finds these, or
/// these and the new one.
pub fn crash_leaves_sets()
    ensures { (g : Geometry) (word : ℕ) (kind : SetKind) (at : ℕ) (a b : Image) (s : Set)
        (ss found : List Set) (more : Set) → AreSetsFrom g word kind at a (s ∷ ss)
        → more.seq ≡ s.seq → MayLeave g word kind at (s ∷ ss) more a b
        → AreSetsFrom g word kind at b found
        → (found ≡ s ∷ ss) ⊎ (found ≡ (s ∷ ss) ++ more ∷ []) }
{}

/// Once a set is written whole behind a node's sets, it is the last of them.
pub fn written_set_is_last()
    ensures { (g : Geometry) (word : ℕ) (kind : SetKind) (at : ℕ) (a b : Image) (s : Set)
        (ss : List Set) (more : Set) → AreSetsFrom g word kind at a (s ∷ ss) → more.seq ≡ s.seq
        → MayLeave g word kind at (s ∷ ss) more a b
        → SetFound g word kind b (at + g.node_sectors) (behind_sets g word kind at (s ∷ ss)) more
        → AreSetsFrom g word kind at b ((s ∷ ss) ++ more ∷ []) }
{}

/// The bytes that are written for a set are found where they go, and those of a first set are its
/// node's only one.
pub fn written_is_read()
    ensures found { (g : Geometry) (word : ℕ) (kind : SetKind) (image : Image) (end place : ℕ)
        (s : Set) (bytes : List ℕ) → HasSet g word s bytes → AreSetKeys kind s.keys
        → 512 * set_sectors g s ≤ length bytes
        → Has image place (values_of (take (512 * set_sectors g s) bytes))
        → place + set_sectors g s ≤ end → SetFound g word kind image end place s }
    ensures first { (g : Geometry) (word : ℕ) (kind : SetKind) (at : ℕ) (image : Image)
        (s : Set) (bytes : List ℕ) → length bytes ≡ 512 * g.node_sectors
        → HasSet g word s bytes → AreSetKeys kind s.keys → Has image at (values_of bytes)
        → AreSetsFrom g word kind at image (s ∷ []) }
{}

/// A node's first set, once it is written with zeros over the rest of the node, is its only one,
/// whatever stood there before.
pub fn first_set_is_read()
    ensures { (g : Geometry) (word : ℕ) (kind : SetKind) (at : ℕ) (a b : Image) (s : Set)
        (bytes : List ℕ) → length bytes ≡ 512 * g.node_sectors → HasSet g word s bytes
        → AreSetKeys kind s.keys → Overwritten at (values_of bytes) a b
        → HasSets g word kind at s.seq (set_sectors g s) b (s ∷ [])
        × IsClear g at (set_sectors g s) b }
{}

/// A further set, once it is written where the node has zeros behind its sets, follows these, and
/// nothing follows it.
pub fn further_set_is_read()
    ensures { (g : Geometry) (word : ℕ) (kind : SetKind) (at taken seq : ℕ) (a b : Image)
        (s : Set) (ss : List Set) (more : Set) (bytes : List ℕ)
        → HasSets g word kind at seq taken a (s ∷ ss) → IsClear g at taken a → more.seq ≡ seq
        → HasSet g word more bytes → AreSetKeys kind more.keys
        → length bytes ≡ 512 * g.node_sectors → taken + set_sectors g more ≤ g.node_sectors
        → Overwritten (at + taken) (put_values g taken more bytes) a b
        → HasSets g word kind at seq (taken + set_sectors g more) b ((s ∷ ss) ++ more ∷ [])
        × IsClear g at (taken + set_sectors g more) b }
{}

/// Of a further set whose write failed, or after which a crash came, a reader finds all or nothing
/// behind the node's sets, where no torn set matches by chance.
pub fn torn_set_leaves()
    ensures { (g : Geometry) (word : ℕ) (kind : SetKind) (at taken seq : ℕ) (a b : Image)
        (s : Set) (ss : List Set) (more : Set) (bytes : List ℕ)
        → HasSets g word kind at seq taken a (s ∷ ss) → (found : List Set) → more.seq ≡ seq
        → Torn (at + taken) (put_values g taken more bytes) a b
        → NoneByChance g word kind at (s ∷ ss) more b → AreSetsFrom g word kind at b found
        → (found ≡ s ∷ ss) ⊎ (found ≡ (s ∷ ss) ++ more ∷ []) }
{}
