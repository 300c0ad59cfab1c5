//! What the definitions come to: each law is the contract of a function.
ghost use Rattle.std.specs.Prelude.{◌≡◌, ◌↔◌, ◌⊎◌, ◌+◌, ◌*◌, ◌<◌, ◌≤◌, ℕ, List, [], ◌∷◌, ◌++◌, length, drop, slice_range, All, Any};
ghost use Rattle.bc_bytes.specs.Fields.{number_at};
ghost use Rattle.bc_jset.specs.declared.entry.JEntry.{JEntry};
ghost use Rattle.bc_jset.specs.declared.error.JsetError.{JsetError};
ghost use Rattle.bc_jset.specs.EntryBytes.{IsEntry, IsRefused, StandsAt, bytes_of};
ghost use Rattle.bc_jset.specs.Example.{example_bytes};
ghost use Rattle.bc_model.specs.Sector.{Image, values_of};
ghost use Rattle.bc_model.specs.Pattern.{zeros};
ghost use Rattle.bc_disk.specs.Bytes.{image_of};
ghost use Rattle.bc_disk.specs.declared.geometry.Geometry.{Geometry};
ghost use Rattle.bc_record.specs.Sectors.{Has, AgreeOn};
ghost use Rattle.bc_record.specs.Kind.{AreFound, behind};
ghost use Rattle.bc_jset.specs.Records.{entry_kind, entry_sectors, EntryFound};
ghost use Rattle.bc_jset.specs.ExampleEntries.{example_geometry, example_image, gapped_image};
ghost use Rattle.bc_jset.specs.Entries.{FoundEntry, HasNoJournal, HasGap, AreEntries, CountUp, StandsInJournal, bucket_start};
ghost use Rattle.bc_jset.specs.Ring.{bucket_of, greatest_in, IsNextPlace};
ghost use Rattle.bc_record.specs.Codec.{Decided};

/// Bytes begin with one entry or with none, or they are refused for one reason at most, and never
/// both.
pub fn one_reading()
    ensures either { (magic : ℕ) (bytes : List ℕ) → Decided ((e : JEntry) × IsEntry magic bytes e) }
    ensures one_entry { (magic : ℕ) (bytes : List ℕ) (d e : JEntry)
        → IsEntry magic bytes d → IsEntry magic bytes e → d ≡ e }
    ensures never_both { (magic : ℕ) (bytes : List ℕ) (e : JEntry) (f : JsetError)
        → IsEntry magic bytes e → IsRefused magic bytes f → ⊥ }
    ensures one_cause { (magic : ℕ) (bytes : List ℕ) (f g : JsetError)
        → IsRefused magic bytes f → IsRefused magic bytes g → f ≡ g }
{}

/// An entry lies within the bytes in which it stands, and rests on its own bytes alone: it stays
/// whatever the others become.
pub fn entry_stays()
    ensures fits { (magic : ℕ) (bytes : List ℕ) (place : ℕ) (e : JEntry)
        → StandsAt magic bytes place e → place + bytes_of e ≤ length bytes }
    ensures stays { (magic : ℕ) (old new : List ℕ) (place : ℕ) (e : JEntry)
        → StandsAt magic old place e
        → slice_range new place (place + bytes_of e) ≡ slice_range old place (place + bytes_of e)
        → StandsAt magic new place e }
{}

/// No entry stands where the bytes of its version would be zero, and so none where all are.
pub fn zeros_are_no_entry()
    ensures { (magic : ℕ) (bytes : List ℕ) (place : ℕ) (e : JEntry)
        → number_at 4 (drop place bytes) 24 ≡ 0 → StandsAt magic bytes place e → ⊥ }
{}

/// There is an entry: these bytes are one, with one extent.
pub fn example()
    ensures { (e : JEntry) × IsEntry 1 example_bytes e
        × (e.seq ≡ 7) × (e.last_seq ≡ 5) × (length e.keys ≡ 1) }
{}

/// Entries in an image: one at most is found at a place, it takes some sectors and lies before the
/// end, it rests on its own sectors alone, and what was written is found, whatever follows it.
pub fn entries_in_sectors()
    ensures one { (g : Geometry) (image : Image) (end place : ℕ) (d e : JEntry)
        → EntryFound g image end place d → EntryFound g image end place e → d ≡ e }
    ensures some { (g : Geometry) (e : JEntry) → 0 < entry_sectors g e }
    ensures fits { (g : Geometry) (image : Image) (end place blocks : ℕ) (e : JEntry)
        → end ≡ place + g.block * blocks → EntryFound g image end place e
        → place + entry_sectors g e ≤ end }
    ensures stays { (g : Geometry) (a b : Image) (end place : ℕ) (e : JEntry)
        → EntryFound g a end place e → AgreeOn a b place (place + entry_sectors g e)
        → place + entry_sectors g e ≤ end → EntryFound g b end place e }
    ensures reads_back { (g : Geometry) (image : Image) (end place n : ℕ) (bytes : List ℕ)
        (e : JEntry) → length bytes ≡ 512 * n → IsEntry g.set_magic bytes e
        → Has image place (values_of bytes) → place + n ≤ end → EntryFound g image end place e }
    ensures zeros { (g : Geometry) (image : Image) (end place : ℕ) (e : JEntry)
        → image place ≡ zeros → EntryFound g image end place e → ⊥ }
{}

/// Entries that stand from a place on stay where their sectors do, and what is found behind them
/// follows them, also where that was written over.
pub fn entries_go_on()
    ensures { (g : Geometry) (a b : Image) (end place : ℕ) (es more rest : List JEntry)
        → AreFound (entry_kind g) a end place (es ++ more)
        → AgreeOn a b place (behind (entry_kind g) place es)
        → behind (entry_kind g) place es ≤ end
        → AreFound (entry_kind g) b end (behind (entry_kind g) place es) rest
        → AreFound (entry_kind g) b end place (es ++ rest) }
{}

/// In the image of bytes an entry is found exactly where it stands in the bytes and ends before the
/// end.
pub fn found_is_spelled()
    ensures { (g : Geometry) (bytes : List ℕ) (end place : ℕ) (e : JEntry)
        → place ≤ end → 512 * end ≤ length bytes → EntryFound g (image_of bytes) end place e
        ↔ (StandsAt g.set_magic bytes (512 * place) e × (512 * place + bytes_of e ≤ 512 * end)) }
{}

/// A device has one list of entries at most. Each number from the oldest one's to the newest one's
/// stands in it once, in order, and each of its entries stands in the journal.
pub fn one_list()
    ensures one { (g : Geometry) (image : Image) (ds es : List FoundEntry)
        → AreEntries g image ds → AreEntries g image es → ds ≡ es }
    ensures numbers { (g : Geometry) (image : Image) (es : List FoundEntry)
        → AreEntries g image es → CountUp es }
    ensures stand { (g : Geometry) (image : Image) (es : List FoundEntry)
        → AreEntries g image es → All (StandsInJournal g image) es }
{}

/// Of each image one of three things holds and no other: no entry is found, or the entries have a gap,
/// which is one, or they are a list.
pub fn one_of_three()
    ensures either { (g : Geometry) (image : Image) → HasNoJournal g image
        ⊎ (((from to : ℕ) × HasGap g image from to) ⊎ ((es : List FoundEntry) × AreEntries g image es)) }
    ensures no_gap { (g : Geometry) (image : Image) (from to : ℕ)
        → HasNoJournal g image → HasGap g image from to → ⊥ }
    ensures no_list { (g : Geometry) (image : Image) (es : List FoundEntry)
        → HasNoJournal g image → AreEntries g image es → ⊥ }
    ensures never_both { (g : Geometry) (image : Image) (from to : ℕ) (es : List FoundEntry)
        → HasGap g image from to → AreEntries g image es → ⊥ }
    ensures one_gap { (g : Geometry) (image : Image) (a b c d : ℕ)
        → HasGap g image a b → HasGap g image c d → (a ≡ c) × (b ≡ d) }
{}

/// The ring goes on at one place. The greatest number of a bucket is that of an entry there, or 0, and
/// none that is found there is greater.
pub fn ring_goes_on()
    ensures some { (g : Geometry) (image : Image) (es : List FoundEntry)
        (a : AreEntries g image es) → (next : ℕ) × IsNextPlace g es a.newest next }
    ensures one { (g : Geometry) (es : List FoundEntry) (newest : FoundEntry) (m n : ℕ)
        → IsNextPlace g es newest m → IsNextPlace g es newest n → m ≡ n }
    ensures greatest { (g : Geometry) (bucket : ℕ) (all : List FoundEntry)
        → All (λ e. bucket_of g e ≡ bucket → e.item.seq ≤ greatest_in g bucket all) all }
    ensures found { (g : Geometry) (bucket : ℕ) (all : List FoundEntry)
        → (greatest_in g bucket all ≡ 0) ⊎ Any (λ e. (bucket_of g e ≡ bucket)
        × (e.item.seq ≡ greatest_in g bucket all)) all }
{}

/// The entries of a device rest on its journal alone.
pub fn entries_stay()
    ensures { (g : Geometry) (a b : Image) (es : List FoundEntry) → AreEntries g a es
        → AgreeOn a b (bucket_start g 0) (bucket_start g g.journal) → AreEntries g b es }
{}

/// There is a device with two entries, the second one in a lower place, and one where entry 7 is found
/// and none are listed, since it needs 5 and 6.
pub fn example_entries()
    ensures two { (d e : FoundEntry) × AreEntries example_geometry example_image (d ∷ e ∷ [])
        × (d.item.seq ≡ 1) × (e.item.seq ≡ 2) × (d.place ≡ 128) × (e.place ≡ 64) }
    ensures gap { HasGap example_geometry gapped_image 5 6 }
{}
