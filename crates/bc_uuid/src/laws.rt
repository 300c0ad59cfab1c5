//! What the definitions come to: each law is the contract of a function.
ghost use Rattle.std.specs.Prelude.{◌≡◌, ℕ, ◌+◌, ◌*◌, List, Some};
ghost use Rattle.bc_model.specs.Sector.{Image};
ghost use Rattle.bc_disk.specs.declared.geometry.Geometry.{Geometry};
ghost use Rattle.bc_record.specs.Sectors.{AgreeOn};
ghost use Rattle.bc_uuid.specs.declared.entry.UuidEntry.{UuidEntry};
ghost use Rattle.bc_uuid.specs.Table.{IsTable, TableIn};

use bc_disk::disk::Disk;

/// Each bucket of an image has one table at most, which rests on the bucket alone. That of a disk is
/// that of what the disk holds: so what was written is read again, by whatever reads a table.
pub fn one_table<D: Disk>()
    ensures one { (g : Geometry) (image : Image) (bucket : ℕ) (xs ys : List UuidEntry)
        → TableIn g image bucket xs → TableIn g image bucket ys → xs ≡ ys }
    ensures stays { (g : Geometry) (a b : Image) (bucket : ℕ) (entries : List UuidEntry)
        → TableIn g a bucket entries
        → AgreeOn a b (g.bucket * bucket) (g.bucket * bucket + g.bucket)
        → TableIn g b bucket entries }
    ensures told { (g : Geometry) (d : D) (image : Image) (bucket : ℕ) (entries : List UuidEntry)
        → (D.facts d).holds ≡ Some image → IsTable g (D.facts d) bucket entries
        → TableIn g image bucket entries }
{}
