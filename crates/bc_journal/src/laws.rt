//! What a crash leaves of a journal: each law is the contract of a function.
ghost use Rattle.std.specs.Prelude.{◌≡◌, ◌⊎◌, ℕ, List, [], ◌∷◌, None};
ghost use Rattle.bc_model.specs.Sector.{Image, values_of};
ghost use Rattle.bc_record.specs.Sectors.{Has, AgreeOn};
ghost use Rattle.bc_jset.specs.declared.entry.JEntry.{JEntry};
ghost use Rattle.bc_jset.specs.Entries.{bucket_start};
ghost use Rattle.bc_jset.specs.ExampleEntries.{example_image};
ghost use Rattle.bc_journal.specs.declared.heads.Heads.{Heads};
ghost use Rattle.bc_journal.specs.Example.{example_ring, example_numbers};
ghost use Rattle.bc_journal.specs.Ring.{Ring};
ghost use Rattle.bc_journal.specs.Sealed.{Sealed, AreBytesOf, numbers_of, sector_at};
ghost use Rattle.bc_journal.specs.Journal.{Journal, IsJournal, IsSealed};
ghost use Rattle.bc_journal.specs.Images.{Holds, IsRead, MayLeave, with_sealed};
ghost use Rattle.bc_journal.specs.declared.place.Numbers.{Numbers};

/// A reader of an image in which a ring's entries stand finds just these.
pub fn entries_are_read()
    ensures { (ring : Ring) (durable : Numbers) (image : Image) (es : List JEntry)
        → Holds ring durable image es → IsRead ring.geometry image es }
{}

/// The entries of a ring stand as long as nothing is written into the journal's buckets.
pub fn entries_stay()
    ensures { (ring : Ring) (durable : Numbers) (a b : Image) (es : List JEntry)
        → Holds ring durable a es
        → AgreeOn a b (bucket_start ring.geometry 0)
        (bucket_start ring.geometry ring.geometry.journal)
        → Holds ring durable b es }
{}

/// There is a ring whose two entries stand in an image.
pub fn example()
    ensures { (d e : JEntry) × Holds example_ring example_numbers example_image (d ∷ e ∷ [])
        × (d.seq ≡ 1) × (e.seq ≡ 2) }
{}

/// Whatever a crash leaves while an entry is written, a reader finds the durable entries, or those
/// of them that the new one needs and the new one behind them.
pub fn crash_leaves_entries()
    ensures { (old new : Journal) (heads : Heads) (s : Sealed) (a b : Image) (es : List JEntry)
        → IsJournal old → old.sealed ≡ None → Holds old.ring old.durable a es
        → IsSealed old heads s new → MayLeave s a b
        → IsRead s.geometry b es ⊎ IsRead s.geometry b (with_sealed es s.entry) }
{}

/// Once the entry's bytes are written whole, it stands in the image with those of the older ones
/// that it needs, as the journal then says that has it back.
pub fn written_entry_stands()
    ensures { (old new : Journal) (heads : Heads) (s : Sealed) (a b : Image) (es : List JEntry)
        (bytes : List ℕ) → IsJournal old → old.sealed ≡ None → Holds old.ring old.durable a es
        → IsSealed old heads s new → MayLeave s a b → AreBytesOf s.geometry s.entry bytes
        → Has b (sector_at s.geometry s.place) (values_of bytes)
        → Holds new.ring (numbers_of s.entry) b (with_sealed es s.entry) }
{}
