//! A disk of sectors of 512 bytes.
ghost use Rattle.std.specs.Prelude.{◌≡◌, length, OnOk, OnErr};
ghost use Rattle.bc_model.specs.Sector.{values_of};
ghost use Rattle.bc_disk.specs.Disk.{DiskFacts, IsHonest, IsOnDisk, IsRead, IsKept, IsWritten, IsFailedWrite, IsSettled, IsCounted};

/// A device failed in this call.
#[derive(Clone, Copy, Debug, PartialEq, Eq, Drop)]
pub struct Failed;

/// Which of the two devices of a cache: the fast one or the slow one before which it stands.
#[derive(Clone, Copy, Debug, PartialEq, Eq, Drop)]
pub enum Device {
    Cache,
    Backing,
}

/// A disk of sectors of 512 bytes, which may fail in any call and may stop at any moment.
///
/// A crash leaves each sector, independently, with the value of the last good barrier or with any
/// value written since; a sector is written whole or not at all. Every call is counted, and each
/// failed one as a fault too; a count stays at 2^64 - 1 once it is there. A disk may tell what it
/// holds: then it tells it always, and else never.
pub trait Disk {
    ghost facts: { Self → DiskFacts };

    /// What a disk holds is one of the images that a crash may leave.
    ghost honest: { (d : Self) → IsHonest (facts d) };

    /// The number of sectors, at most 2^41. It never changes.
    fn sectors(&self) -> u64
        ensures { result ≡ (facts self.now).sectors };

    /// Fills `into` with the sectors from `at` on. After `Failed` its bytes are any.
    fn read(&mut self, at: u64, into: &mut [u8]) -> Result<(), Failed>
        requires on_disk { IsOnDisk at (length into.old) (facts self.old) }
        ensures ok { OnOk result (IsRead at (values_of into.new) (facts self.old)) }
        ensures kept { IsKept (facts self.old) (facts self.new) }
        ensures counted { IsCounted result (facts self.old) (facts self.new) };

    /// Writes the sectors from `at` on. After `Failed` each covered sector reads as before or as the
    /// new value, and a crash may leave either.
    fn write(&mut self, at: u64, bytes: &[u8]) -> Result<(), Failed>
        requires on_disk { IsOnDisk at (length bytes.now) (facts self.old) }
        ensures ok { OnOk result (IsWritten at (values_of bytes.now) (facts self.old) (facts self.new)) }
        ensures failed { OnErr result (IsFailedWrite at (values_of bytes.now) (facts self.old) (facts self.new)) }
        ensures counted { IsCounted result (facts self.old) (facts self.new) };

    /// Makes what the disk holds all that a crash may leave. After `Failed` nothing has changed.
    fn barrier(&mut self) -> Result<(), Failed>
        ensures ok { OnOk result (IsSettled (facts self.old) (facts self.new)) }
        ensures failed { OnErr result (IsKept (facts self.old) (facts self.new)) }
        ensures counted { IsCounted result (facts self.old) (facts self.new) };
}
