//! What the definitions come to: each law is the contract of a function.
ghost use Rattle.std.specs.Prelude.{◌≡◌, ℕ, ◌-◌, ◌*◌, ◌<◌, ◌≤◌, Bool, List, ◌++◌, length, replicate, Some};
ghost use Rattle.bc_model.specs.Sector.{Image, values_of};
ghost use Rattle.bc_model.specs.Pattern.{zeros};
ghost use Rattle.bc_disk.specs.declared.geometry.Geometry.{Geometry};
ghost use Rattle.bc_jset.specs.declared.entry.JEntry.{JEntry};
ghost use Rattle.bc_jset.specs.EntryBytes.{IsEntry};
ghost use Rattle.bc_jset.specs.Records.{entry_sectors};
ghost use Rattle.bc_set.specs.SetBytes.{IsSet};
ghost use Rattle.bc_set.specs.Records.{set_sectors};
ghost use Rattle.bc_prio.specs.Set as prio;
ghost use Rattle.bc_set.specs.declared.set.Set.{Set};
ghost use Rattle.bc_meta.specs.Layout.{Layout};
ghost use Rattle.bc_meta.specs.Tree.{Owner};
ghost use Rattle.bc_meta.specs.Places.{Places, IsFirstWrite, NoChance};
ghost use Rattle.bc_facts.specs.Layout.{IsLayoutOf};
ghost use Rattle.bc_facts.specs.Teeth.{NeedsNoStray};
ghost use Rattle.bc_facts.specs.Laws.{ReadsEntries, ReadsSets, ReadsChain, ReadsZeros};
ghost use Rattle.bc_facts.specs.Seen.{kind_of, seen_entry, seen_prio, seen_set};
ghost use Rattle.bc_facts.specs.Torn.{NoTornRecord};

/// Each device has a layout: the real records have what the machine asks of records.
pub fn law_layout()
    ensures { (g : Geometry) → (w : Layout) × IsLayoutOf g w }
{}

/// By each layout of a device the machine reads of an image what the formats say: the entries of
/// the journal, the sets of each node, and the chain of generations. No record is found where the
/// first sector is zeros.
pub fn law_reads()
    ensures entries { (g : Geometry) (w : Layout) → IsLayoutOf g w
        → (image : Image) → ReadsEntries g w image }
    ensures sets { (g : Geometry) (w : Layout) → IsLayoutOf g w
        → (image : Image) → ReadsSets g w image }
    ensures chain { (g : Geometry) (w : Layout) → IsLayoutOf g w → 0 < g.journal
        → (image : Image) (first : ℕ) → ReadsChain g w image first }
    ensures zeros { (g : Geometry) (w : Layout) → IsLayoutOf g w
        → (image : Image) (end place : ℕ) → image place ≡ zeros → ReadsZeros g w image end place }
{}

/// What a writer lays out in whole blocks is a record's values, whatever its pads are; and a set with
/// zeros behind it up to the node's end is a node's first write.
pub fn law_written()
    ensures entries { (g : Geometry) (w : Layout) → IsLayoutOf g w → (bytes : List ℕ) (e : JEntry)
        → length bytes ≡ 512 * entry_sectors g e → IsEntry g.set_magic bytes e
        → w.entries.spelled tt (values_of bytes) ≡ Some (seen_entry g e) }
    ensures sets { (g : Geometry) (w : Layout) → IsLayoutOf g w → (o : Owner)
        (bytes : List ℕ) (s : Set) → length bytes ≡ 512 * set_sectors g s
        → IsSet o.word g.set_magic (kind_of o.leaf) bytes s
        → w.sets.spelled o (values_of bytes) ≡ Some (seen_set g o.leaf s) }
    ensures first { (g : Geometry) (w : Layout) → IsLayoutOf g w → (o : Owner)
        (bytes : List ℕ) (s : Set) → length bytes ≡ 512 * set_sectors g s
        → IsSet o.word g.set_magic (kind_of o.leaf) bytes s → set_sectors g s ≤ g.node_sectors
        → IsFirstWrite w o (seen_set g o.leaf s)
        (values_of (bytes ++ replicate (512 * (g.node_sectors - set_sectors g s)) 0)) }
    ensures prios { (g : Geometry) (w : Layout) → IsLayoutOf g w → (part : ℕ) (bytes : List ℕ)
        → prio.IsSet g part bytes
        → w.prios.spelled part (values_of bytes) ≡ Some (seen_prio g part bytes) }
{}

/// Nothing of an entry or a set is lost to the machine: those that it sees alike are the same.
pub fn law_nothing_lost()
    ensures entries { (g : Geometry) (a b : JEntry) → seen_entry g a ≡ seen_entry g b → a ≡ b }
    ensures sets { (g : Geometry) (leaf : Bool) (a b : Set)
        → seen_set g leaf a ≡ seen_set g leaf b → a ≡ b }
{}

/// Where no torn record of a format matches by chance, none that the machine reads does.
pub fn law_torn()
    ensures { (g : Geometry) (w : Layout) → IsLayoutOf g w
        → (opening : Image) (p : Places) → NoTornRecord g opening p → NoChance w opening p }
{}

/// That no entry which counts stands elsewhere too is needed: there is a device whose entries the
/// format lists, of which the machine reads none.
pub fn law_teeth_stray()
    ensures { NeedsNoStray }
{}
