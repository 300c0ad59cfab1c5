//! What the definitions come to: each law is the contract of a function.
ghost use Rattle.std.specs.Prelude.{◌≡◌, ℕ, ◌+◌, ◌*◌, ◌<◌, ◌≤◌, List, length, slice_range};
ghost use Rattle.bc_model.specs.Sector.{Image, values_of};
ghost use Rattle.bc_disk.specs.Bytes.{image_of};
ghost use Rattle.bc_disk.specs.declared.geometry.Geometry.{Geometry};
ghost use Rattle.bc_record.specs.Sectors.{bytes_in, Has, AgreeOn, in_blocks};

/// The bytes of some sectors are those that a read of an image gives, or those at their place where
/// the image is that of bytes; and they rest on these sectors alone.
pub fn bytes_of_sectors()
    ensures read { (image : Image) (place n : ℕ) (bytes : List ℕ) → length bytes ≡ 512 * n
        → Has image place (values_of bytes) → bytes_in image place n ≡ bytes }
    ensures part { (bytes : List ℕ) (place n : ℕ) → 512 * (place + n) ≤ length bytes
        → bytes_in (image_of bytes) place n ≡ slice_range bytes (512 * place) (512 * (place + n)) }
    ensures alone { (a b : Image) (place n : ℕ) → AgreeOn a b place (place + n)
        → bytes_in a place n ≡ bytes_in b place n }
{}

/// Bytes take the fewest whole blocks that hold them.
pub fn whole_blocks()
    ensures hold { (block bytes : ℕ) → 0 < block → bytes ≤ 512 * in_blocks block bytes }
    ensures fewest { (block bytes n : ℕ) → 0 < block → bytes ≤ 512 * (block * n)
        → in_blocks block bytes ≤ block * n }
{}

/// A bucket and a node are whole blocks of some sectors.
pub fn bucket_is_blocks()
    ensures some { (g : Geometry) → 0 < g.block }
    ensures whole { (g : Geometry) → (k : ℕ) × (g.bucket ≡ g.block * k) }
    ensures node { (g : Geometry) → (k : ℕ) × (g.node_sectors ≡ g.block * k) }
{}
