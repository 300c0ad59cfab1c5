//! A pair is closed.
ghost use Rattle.std.specs.Prelude.{◌≡◌, Any, OnErr, OnOk};
ghost use Rattle.std.specs.Bool.{MatchBool};
ghost use Rattle.bc_bucket.specs.declared.bucket.Mark.TheVariants as marks;
ghost use Rattle.bc_super.specs.Super.{IsUsable};
ghost use Rattle.bc_open.specs.Close.{IsCleanOf, IsClosed};
ghost use Rattle.bc_open.specs.Open.{HasFailed};
ghost use Rattle.bc_open.specs.Left.{ChangesState, IsStill};

use bc_bucket::{Bucket, Buckets, Mark};
use bc_disk::disk::{Disk, Failed};
use bc_state::write_state;
use bc_super::backing::BackingSuper;
use bc_super::state::BackingState;

/// Whether one of the buckets has data that is all that there is of it.
fn any_dirty(buckets: &[Bucket]) -> bool
    ensures { MatchBool result (Any (λ b. b.mark ≡ marks.Dirty) buckets.now)
        (¬ (Any (λ b. b.mark ≡ marks.Dirty) buckets.now)) }
{
    for bucket in buckets {
        if bucket.mark == Mark::Dirty {
            return true;
        }
    }
    false
}

/// Closes a pair of which no key waits: what the backing device holds is made stable, and where no
/// bucket has data that is all that there is of it, its superblock says so. The superblock is the one
/// that the device had when it was opened. Takes no memory.
///
/// Wherever the device stops, also within a write, a crash leaves what it held, or that with `clean`
/// in its superblock, and this only where no bucket has such data.
pub fn close_pair<B: Disk>(
    backing: &mut B,
    superblock: &BackingSuper,
    buckets: &Buckets,
) -> Result<(), Failed>
    requires usable { IsUsable (B.facts backing.old).sectors superblock.now }
    ensures ok { OnOk result (IsClosed superblock.now buckets.now (B.facts backing.old)
        (B.facts backing.new)) }
    ensures failed { OnErr result (HasFailed 3 (B.facts backing.old) (B.facts backing.new)) }
    ensures faults { OnOk result ((B.facts backing.new).faults ≡ (B.facts backing.old).faults) }
    ensures left { IsStill (B.facts backing.old) → ChangesState (IsCleanOf buckets.now)
        superblock.now (B.facts backing.old) (B.facts backing.new) }
{
    backing.barrier()?;
    if any_dirty(buckets.records()) {
        return Ok(());
    }
    write_state(backing, superblock, BackingState::Clean)
}
