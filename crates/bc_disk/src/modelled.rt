//! The calls of any disk that stands for a model, which it then goes on to stand for.
ghost use Rattle.std.specs.Prelude.{length, OnOk, OnErr};
ghost use Rattle.bc_model.specs.Sector.{values_of};
ghost use Rattle.bc_disk.specs.Device.{DeviceModel, after_read, after_write, after_barrier, after_fault, after_failed_write};
ghost use Rattle.bc_disk.specs.Disk.{IsOnDisk, IsKept, IsSettled, IsCounted, StandsFor};
ghost use Rattle.bc_disk.specs.Stands.{MayRead, settled_model};

use crate::disk::{Disk, Failed};

/// Reads the sectors from `at` on, and gives values that the model may read there.
pub fn read<D: Disk>(disk: &mut D, at: u64, into: &mut [u8]) -> Result<(), Failed>
    ghost model: { DeviceModel }
    requires on_disk { IsOnDisk at (length into.old) (D.facts disk.old) }
    requires stands { StandsFor (D.facts disk.old) model }

    ensures values { OnOk result (MayRead at (values_of into.new) model.content) }
    ensures ok { OnOk result (StandsFor (D.facts disk.new) (after_read model)) }
    ensures failed { OnErr result (StandsFor (D.facts disk.new) (after_fault model)) }
{
    disk.read(at, into)
}

/// Writes the sectors from `at` on. The model allows both outcomes of a failed write.
pub fn write<D: Disk>(disk: &mut D, at: u64, bytes: &[u8]) -> Result<(), Failed>
    ghost model: { DeviceModel }
    requires on_disk { IsOnDisk at (length bytes.now) (D.facts disk.old) }
    requires stands { StandsFor (D.facts disk.old) model }

    ensures ok { OnOk result
        (StandsFor (D.facts disk.new) (after_write at (values_of bytes.now) model)) }
    ensures failed { OnErr result
        (StandsFor (D.facts disk.new) (after_failed_write at (values_of bytes.now) model)) }
{
    disk.write(at, bytes)
}

/// Makes what the model may read all that a crash may leave.
pub fn barrier<D: Disk>(disk: &mut D) -> Result<(), Failed>
    ghost model: { DeviceModel }
    requires { StandsFor (D.facts disk.old) model }

    ensures ok { OnOk result (StandsFor (D.facts disk.new) (after_barrier model)) }
    ensures failed { OnErr result (StandsFor (D.facts disk.new) (after_fault model)) }
{
    disk.barrier()
}

/// Makes the first barrier of a run, after which the disk stands for the model that begins it.
pub fn settle<D: Disk>(disk: &mut D) -> Result<(), Failed>
    ensures ok { OnOk result (StandsFor (D.facts disk.new) (settled_model (D.facts disk.new))) }
    ensures settled { OnOk result (IsSettled (D.facts disk.old) (D.facts disk.new)) }
    ensures failed { OnErr result (IsKept (D.facts disk.old) (D.facts disk.new)) }
    ensures counted { IsCounted result (D.facts disk.old) (D.facts disk.new) }
{
    disk.barrier()
}
