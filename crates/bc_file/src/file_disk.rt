//! A disk over an open file or block device.
ghost use Rattle.std.specs.Prelude.{◌≡◌, ◌≤◌, ◌^◌, IfOk};

use crate::counts::Counts;
use crate::size::size_of;
use bc_disk::disk::{Disk, Failed};
use std::fs::{File, OpenOptions};
use std::io;
use std::os::unix::fs::FileExt;
use std::rt::Files;

/// How many sectors a disk has at most.
const MOST_SECTORS: u64 = 1 << 41;

/// A disk over an open file or block device. It doesn't tell what it holds.
///
/// The number of sectors is found when the disk is made, and stays: bytes past the last whole
/// sector and past the first 2^41 sectors are unused. Reads and writes are positioned, so each is
/// one system call as long as the system takes it whole; a barrier is one too, and waits until what
/// was written is on the medium. A call that a signal interrupts is tried again. None takes memory.
#[derive(Drop)]
pub struct FileDisk {
    file: File,
    sectors: u64,
    counts: Counts,
    ghost small: { sectors ≤ 2 ^ 41 },
}

impl FileDisk {
    ghost use Rattle.bc_file.specs.Counts.{none_made};
    ghost use Rattle.bc_file.specs.FileDisk.{sectors_in, sectors, counts};

    /// A disk over the first `bytes` bytes of a file that is open for reading and writing, and not
    /// for appending. Where the file is shorter, a read past its end fails.
    pub fn new(file: File, bytes: u64) -> FileDisk
        ensures sectors { sectors result ≡ sectors_in bytes }
        ensures counts { counts result ≡ none_made }
    {
        FileDisk {
            file,
            sectors: (bytes / 512).min(MOST_SECTORS),
            counts: Counts::none(),
        }
    }

    /// A disk over the whole of such a file: it has as many sectors as the file has whole ones now, but
    /// no more than 2^41. Fails where the file's size can't be found, as that of a pipe. No contract
    /// can say what a file has, so that the size is the file's is said of any stream, by `size_of`.
    pub fn from_file(mut file: File) -> io::Result<FileDisk>
        ensures { IfOk result (λ d. counts d ≡ none_made) }
    {
        let bytes = size_of(&mut file)?;
        Ok(FileDisk::new(file, bytes))
    }

    /// Opens the file or block device at this path, and gives a disk over the whole of it. Fails
    /// where none is there, or it can't be opened for reading and writing or sought to its end.
    pub fn open<R: Files<File = File>>(rt: &R, path: &str) -> io::Result<FileDisk>
        ensures { IfOk result (λ d. counts d ≡ none_made) }
    {
        let file = OpenOptions::new().read(true).write(true).open(rt, path)?;
        FileDisk::from_file(file)
    }

    /// How many reads, writes and barriers were called, and how many of them failed.
    pub fn counts(&self) -> Counts
        ensures { result ≡ counts self.now }
    {
        self.counts
    }
}

impl Disk for FileDisk {
    ghost use Rattle.bc_file.specs.FileDisk.{as_disk, as_disk_is_honest};

    ghost facts = { as_disk };

    ghost honest = { as_disk_is_honest };

    fn sectors(&self) -> u64 {
        self.sectors
    }

    /// Fails where the system gives an error, or the file has been cut shorter.
    fn read(&mut self, at: u64, into: &mut [u8]) -> Result<(), Failed> {
        let outcome = self.file.read_exact_at(into, 512 * at);
        self.counts.count(outcome)
    }

    /// Fails where the system gives an error or takes nothing. What it takes in part goes on.
    fn write(&mut self, at: u64, bytes: &[u8]) -> Result<(), Failed> {
        let outcome = self.file.write_all_at(bytes, 512 * at);
        self.counts.count(outcome)
    }

    /// Fails where the system gives an error. The system may then drop what it couldn't write, so
    /// a good barrier after a failed one says nothing of the writes before that.
    fn barrier(&mut self) -> Result<(), Failed> {
        let outcome = self.file.sync_data();
        self.counts.count(outcome)
    }
}
