//! What the model of a device promises, each law the contract of a function.
ghost use Rattle.std.specs.Prelude.{◌≡◌, ◌⊎◌, ◌↔◌, ℕ, List, [], ◌∷◌, Some};
ghost use Rattle.bc_model.specs.Sector.{Value, Image, at_run};
ghost use Rattle.bc_disk.specs.Device.{Among, Content, MayLeave, quiet, written, failed, settled};
ghost use Rattle.bc_disk.specs.Stands.{MayStay};

/// A crash after a good barrier leaves exactly what reads give: of each sector one of the values
/// that a read of it may give, and so the image that reads give, where that is one.
pub fn crash_after_barrier()
    ensures each { (c : Content) (image : Image) →
        MayLeave (settled c) image ↔ ((s : ℕ) → Among (image s) (c.reads s)) }
    ensures one { (c : Content) (held image : Image) → ((s : ℕ) → c.reads s ≡ held s ∷ []) →
        MayLeave (settled c) image ↔ ((s : ℕ) → image s ≡ held s) }
{}

/// Before a barrier a write takes away no image that a crash might have left, be it good or failed.
pub fn write_takes_no_image()
    ensures good { (c : Content) (at : ℕ) (values : List Value) (image : Image) →
        MayLeave c image → MayLeave (written at values c) image }
    ensures failed { (c : Content) (at : ℕ) (values : List Value) (image : Image) →
        MayLeave c image → MayLeave (failed at values c) image }
{}

/// A crash never tears a sector: after a write, good or failed, it leaves each sector with a value
/// that it might have left before, or with the new value, whole.
pub fn crash_tears_no_sector()
    ensures good { (c : Content) (at : ℕ) (values : List Value) (image : Image) →
        MayLeave (written at values c) image
        ↔ ((s : ℕ) → (at_run at values s ≡ Some (image s)) ⊎ Among (image s) (c.leaves s)) }
    ensures failed { (c : Content) (at : ℕ) (values : List Value) (image : Image) →
        MayLeave (failed at values c) image
        ↔ ((s : ℕ) → (at_run at values s ≡ Some (image s)) ⊎ Among (image s) (c.leaves s)) }
{}

/// A failed write adds its values and no others, to what reads may give and to what a crash may
/// leave.
pub fn failed_write_adds_its_values()
    ensures reads { (c : Content) (at : ℕ) (values : List Value) (s : ℕ) (v : Value) →
        Among v ((failed at values c).reads s)
        ↔ ((at_run at values s ≡ Some v) ⊎ Among v (c.reads s)) }
    ensures leaves { (c : Content) (at : ℕ) (values : List Value) (s : ℕ) (v : Value) →
        Among v ((failed at values c).leaves s)
        ↔ ((at_run at values s ≡ Some v) ⊎ Among v (c.leaves s)) }
{}

/// What a read may give is at any time one of the values that a crash may leave.
pub fn what_is_read_may_stay()
    ensures quiet { (held : Image) → MayStay (quiet held) }
    ensures written { (c : Content) (at : ℕ) (values : List Value) →
        MayStay c → MayStay (written at values c) }
    ensures failed { (c : Content) (at : ℕ) (values : List Value) →
        MayStay c → MayStay (failed at values c) }
    ensures settled { (c : Content) → MayStay (settled c) }
{}
