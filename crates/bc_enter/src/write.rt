//! The writing of an entry.
ghost use Rattle.std.specs.Prelude.{length, OnOk};
ghost use Rattle.bc_disk.specs.Disk.{IsOnDisk};
ghost use Rattle.bc_model.specs.Sector.{values_of};
ghost use Rattle.bc_super.specs.Writing.{AreCounted, IsStored};
ghost use Rattle.bc_enter.specs.Written.{IsPartly};

use bc_disk::disk::{Disk, Failed};

/// Writes a sealed entry between two barriers: what it names and what it no longer needs is stable
/// before it, and it is so before anything may rest on it. Takes no memory.
///
/// After `Ok` the device holds it, and a crash leaves just what it holds. After `Failed` it is there
/// in part, whole or not at all.
pub fn write_entry<D: Disk>(disk: &mut D, at: u64, bytes: &[u8]) -> Result<(), Failed>
    requires { IsOnDisk at (length bytes.now) (D.facts disk.old) }
    ensures ok { OnOk result (IsStored at (values_of bytes.now) (D.facts disk.old) (D.facts disk.new)) }
    ensures partly { IsPartly at (values_of bytes.now) (D.facts disk.old) (D.facts disk.new) }
    ensures counted { AreCounted 3 result (D.facts disk.old) (D.facts disk.new) }
{
    disk.barrier()?;
    disk.write(at, bytes)?;
    disk.barrier()
}
