//! A source of bytes over standard input or any other reader.
ghost use Rattle.std.specs.Prelude.{◌≡◌, ◌≤◌, length, IfOk};

use crate::counts::Counts;
use bc_disk::disk::Failed;
use bc_disk::stream::Source;
use std::io::{self, ErrorKind, Read};
use std::marker::Model;

/// A source over a reader, such as standard input or a file. It doesn't tell what is left.
#[derive(Drop)]
pub struct FileIn<R> {
    reader: R,
    counts: Counts,
}

impl<R> Model for FileIn<R> {
    ghost use Rattle.bc_file.specs.declared.counts.Counts.{Counts};

    ghost Value = { Counts };

    ghost view = { λ s. s.counts };
}

// One read, tried again where a signal interrupts it.
fn read_some<R: Read>(reader: &mut R, into: &mut [u8]) -> io::Result<usize>
    ensures { IfOk result (λ n. n ≤ length into.new) }
{
    for _ in 0..u64::MAX {
        match reader.read(into) {
            Err(error) if error.kind() == ErrorKind::Interrupted => {}
            outcome => return outcome,
        }
    }
    Err(ErrorKind::Interrupted.into())
}

impl<R: Read> FileIn<R> {
    ghost use Rattle.bc_file.specs.Counts.{none_made};

    /// A source that gives what this reader gives from here on, and reads nothing ahead.
    pub fn new(reader: R) -> FileIn<R>
        ensures { result ≡ none_made }
    {
        FileIn {
            reader,
            counts: Counts::none(),
        }
    }

    /// How many calls were made, and how many of them failed.
    pub fn counts(&self) -> Counts
        ensures { result ≡ self.now }
    {
        self.counts
    }
}

impl<R: Read> Source for FileIn<R> {
    ghost use Rattle.bc_disk.specs.Stream.{IsNext};
    ghost use Rattle.bc_file.specs.Counts.{counted};
    ghost use Rattle.bc_file.specs.Stream.{untold};

    ghost facts = { untold };

    /// Reads once, so it may give fewer bytes than fit before the input ends. Fails where the
    /// reader does.
    fn next(&mut self, into: &mut [u8]) -> Result<usize, Failed>
        ensures next { IsNext result into.new (untold self.old) (untold self.new) }
        ensures counts { self.new ≡ counted result self.old }
    {
        let outcome = read_some(&mut self.reader, into);
        self.counts.count(outcome)
    }
}
