//! Sectors that are written and made stable.
ghost use Rattle.std.specs.Prelude.{length, OnOk, OnErr};
ghost use Rattle.bc_model.specs.Sector.{values_of};
ghost use Rattle.bc_disk.specs.Disk.{IsOnDisk, IsFailedWrite};
ghost use Rattle.bc_super.specs.Writing.{IsStored, AreCounted};

use bc_disk::disk::{Disk, Failed};

/// Writes the sectors from `at` on and makes what the disk holds all that a crash may leave. After
/// `Failed` each of these sectors has its old value or the new one, and a crash may leave either.
pub(crate) fn store<D: Disk>(disk: &mut D, at: u64, bytes: &[u8]) -> Result<(), Failed>
    requires { IsOnDisk at (length bytes.now) (D.facts disk.old) }
    ensures ok { OnOk result (IsStored at (values_of bytes.now) (D.facts disk.old) (D.facts disk.new)) }
    ensures failed { OnErr result (IsFailedWrite at (values_of bytes.now) (D.facts disk.old) (D.facts disk.new)) }
    ensures counted { AreCounted 2 result (D.facts disk.old) (D.facts disk.new) }
{
    disk.write(at, bytes)?;
    disk.barrier()
}
