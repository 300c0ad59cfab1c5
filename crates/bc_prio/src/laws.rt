//! What the definitions come to, as the contract of a function.
ghost use Rattle.std.specs.Prelude.{◌≡◌, ◌≢◌, ◌↔◌, ℕ, ◌+◌, ◌*◌, List, [], ◌∷◌, Some, Contains};
ghost use Rattle.bc_model.specs.Sector.{Image, values_of};
ghost use Rattle.bc_model.specs.Pattern.{zeros};
ghost use Rattle.bc_disk.specs.Gens.{Gens};
ghost use Rattle.bc_disk.specs.declared.geometry.Geometry.{Geometry};
ghost use Rattle.bc_disk.specs.declared.gens.BucketRecord.{BucketRecord};
ghost use Rattle.bc_record.specs.Sectors.{Has, AgreeOn};
ghost use Rattle.bc_prio.specs.declared.error.PrioError.{PrioError};
ghost use Rattle.bc_prio.specs.Refusal.{IsRefused};
ghost use Rattle.bc_prio.specs.Set.{HasCount, HoldsPart, IsWrittenSet, magic_of, next_in};
ghost use Rattle.bc_prio.specs.Records.{bucket_in, SetFound, ChainIn, IsReadIn, RefusedIn};
ghost use Rattle.bc_prio.specs.Example.{example_geometry, example_image, example_records};
ghost use Rattle.bc_prio.specs.Chain.{IsChain};

use bc_disk::disk::Disk;

/// What a disk holds says one thing as the chain that begins in a bucket. So a chain that was written
/// is read again, its buckets and all records, by whatever reads a chain.
pub fn one_chain<D: Disk>()
    ensures { (g : Geometry) (d : D) (image : Image) (first : ℕ) (a b : Gens)
        → (D.facts d).holds ≡ Some image
        → IsChain g (D.facts d) first a → IsChain g (D.facts d) first b → a ≡ b }
{}

/// Sets in an image, each in a bucket of its own: one at most is found in a bucket, it rests on the
/// bucket alone, and what was written is found. In a first sector of zeros none is, unless the magic
/// is zero itself.
pub fn sets_in_buckets()
    ensures one { (g : Geometry) (image : Image) (bucket part m n : ℕ)
        (xs ys : List BucketRecord) → SetFound g image bucket part m xs
        → SetFound g image bucket part n ys → m ≡ n }
    ensures stays { (g : Geometry) (a b : Image) (bucket part next : ℕ)
        (records : List BucketRecord) → SetFound g a bucket part next records
        → AgreeOn a b (g.bucket * bucket) (g.bucket * bucket + g.bucket)
        → SetFound g b bucket part next records }
    ensures reads_back { (g : Geometry) (image : Image) (bucket part next : ℕ) (bytes : List ℕ)
        (records : List BucketRecord) → IsWrittenSet g records part next bytes
        → HasCount g part bytes → Has image (g.bucket * bucket) (values_of bytes)
        → SetFound g image bucket part next records }
    ensures zeros { (g : Geometry) (image : Image) (bucket part next : ℕ)
        (records : List BucketRecord) → magic_of g ≢ 0 → image (g.bucket * bucket) ≡ zeros
        → SetFound g image bucket part next records → ⊥ }
{}

/// A set is found where the record of its part is read that the bucket's bytes are.
pub fn sets_are_records()
    ensures { (g : Geometry) (image : Image) (bucket part next : ℕ) (records : List BucketRecord)
        → SetFound g image bucket part next records
        ↔ (IsReadIn g image bucket part (bucket_in g image bucket)
        × (next_in (bucket_in g image bucket) ≡ next)
        × HoldsPart g records part (bucket_in g image bucket)) }
{}

/// A chain that is found in an image isn't refused there, and one that is refused is so for one reason.
pub fn one_reading()
    ensures never_both { (g : Geometry) (image : Image) (first : ℕ) (gens : Gens)
        (error : PrioError) → ChainIn g image first gens → RefusedIn g image first error → ⊥ }
    ensures one_cause { (g : Geometry) (image : Image) (first : ℕ) (e f : PrioError)
        → RefusedIn g image first e → RefusedIn g image first f → e ≡ f }
{}

/// The chain of an image, as a crash leaves one: it says one thing at most, it rests on its own
/// buckets alone, and the chain of a disk is that of what the disk holds, and so is what a reader of
/// the disk refuses, other than by a failed call or for want of memory.
pub fn chain_in_image<D: Disk>()
    ensures one { (g : Geometry) (image : Image) (first : ℕ) (a b : Gens)
        → ChainIn g image first a → ChainIn g image first b → a ≡ b }
    ensures stays { (g : Geometry) (a b : Image) (first : ℕ) (gens : Gens)
        → ChainIn g a first gens → ((bucket : ℕ) → Contains gens.chain bucket
        → AgreeOn a b (g.bucket * bucket) (g.bucket * bucket + g.bucket))
        → ChainIn g b first gens }
    ensures told { (g : Geometry) (d : D) (image : Image) (first : ℕ) (gens : Gens)
        → (D.facts d).holds ≡ Some image → IsChain g (D.facts d) first gens
        → ChainIn g image first gens }
    ensures refused { (g : Geometry) (old new : D) (image : Image) (first : ℕ)
        (error : PrioError) → (D.facts old).holds ≡ Some image
        → error ≢ PrioError.Fault → error ≢ PrioError.Memory
        → IsRefused g (D.facts old) (D.facts new) first error → RefusedIn g image first error }
{}

/// There is a chain: one set in bucket 3 of a device of 128 buckets.
pub fn example()
    ensures { (gens : Gens) × ChainIn example_geometry example_image 3 gens
        × (gens.chain ≡ 3 ∷ []) × (gens.records ≡ example_records) }
{}
