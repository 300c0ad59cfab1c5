//! What the definitions come to: each law is the contract of a function.
ghost use Rattle.std.specs.Prelude.{◌≡◌};
ghost use Rattle.bc_model.specs.Sector.{Image};
ghost use Rattle.bc_disk.specs.declared.geometry.Geometry.{Geometry};
ghost use Rattle.bc_entries.specs.declared.error.JournalError.{JournalError};
ghost use Rattle.bc_entries.specs.Journal.{Journal, HasJournal, IsRefused};

/// An image has one journal at most, and is refused for one reason at most, and never both.
pub fn one_answer()
    ensures journal { (g : Geometry) (image : Image) (a b : Journal)
        → HasJournal g image a → HasJournal g image b → a ≡ b }
    ensures cause { (g : Geometry) (image : Image) (a b : JournalError)
        → IsRefused g image a → IsRefused g image b → a ≡ b }
    ensures never_both { (g : Geometry) (image : Image) (j : Journal) (e : JournalError)
        → HasJournal g image j → IsRefused g image e → ⊥ }
{}
