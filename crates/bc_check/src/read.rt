//! Reads of a device.
ghost use Rattle.std.specs.Prelude.{◌≡◌, ◌*◌, ◌≤◌, length, OnOk, IfOk, IfErr};
ghost use Rattle.bc_model.specs.Sector.{values_of};
ghost use Rattle.bc_disk.specs.Disk.{IsKept, IsOnDisk, IsRead};
ghost use Rattle.bc_check.specs.Calls.{IsWantOf};

use crate::verdict::CheckError;
use bc_disk::disk::{Device, Disk};
use std::alloc::{AllocError, Global};

/// Room for so many sectors.
pub fn buffer(alloc: Global, sectors: usize) -> Result<Vec<u8>, AllocError>
    requires { sectors ≤ 32768 }
    ensures { IfOk result (λ v. length v.items ≡ 512 * sectors) }
{
    vec![in alloc; 0u8; 512 * sectors]
}

/// Fills `into` with the sectors of this device from `at` on.
pub fn read_of<D: Disk>(
    device: Device,
    disk: &mut D,
    at: u64,
    into: &mut [u8],
) -> Result<(), CheckError>
    requires { IsOnDisk at (length into.old) (D.facts disk.old) }
    ensures read { OnOk result (IsRead at (values_of into.new) (D.facts disk.old)) }
    ensures kept { IsKept (D.facts disk.old) (D.facts disk.new) }
    ensures want { IfErr result
        (λ e. IsWantOf device e (D.facts disk.old).faults (D.facts disk.new).faults) }
    ensures good { OnOk result ((D.facts disk.new).faults ≡ (D.facts disk.old).faults) }
{
    match disk.read(at, into) {
        Ok(()) => Ok(()),
        Err(_failed) => Err(CheckError::Fault(device)),
    }
}
