//! A sink of bytes over standard output or any other writer.
ghost use Rattle.std.specs.Prelude.{◌≡◌, ◌≤◌, length, IfOk};

use crate::counts::Counts;
use bc_disk::disk::Failed;
use bc_disk::stream::Sink;
use std::io::{self, ErrorKind, Write};
use std::marker::Model;

/// A sink over a writer, such as standard output or a file. It doesn't tell what was taken.
///
/// It keeps nothing back: each call flushes the writer, so that what was put is on its way when the
/// call is over, and nothing is left to do when the program ends.
#[derive(Drop)]
pub struct FileOut<W> {
    writer: W,
    counts: Counts,
    // How often nothing was taken of a piece that isn't empty.
    stops: u64,
}

impl<W> Model for FileOut<W> {
    ghost use Rattle.bc_file.specs.Stream.{SinkCounts};

    ghost Value = { SinkCounts };

    ghost view = { λ s. record { counts = s.counts; stops = s.stops } };
}

// One write, tried again where a signal interrupts it.
fn write_some<W: Write>(writer: &mut W, bytes: &[u8]) -> io::Result<usize>
    ensures { IfOk result (λ n. n ≤ length bytes.now) }
{
    for _ in 0..u64::MAX {
        match writer.write(bytes) {
            Err(error) if error.kind() == ErrorKind::Interrupted => {}
            outcome => return outcome,
        }
    }
    Err(ErrorKind::Interrupted.into())
}

// The same, and a flush behind it.
fn write_out<W: Write>(writer: &mut W, bytes: &[u8]) -> io::Result<usize>
    ensures { IfOk result (λ n. n ≤ length bytes.now) }
{
    let many = write_some(writer, bytes)?;
    writer.flush()?;
    Ok(many)
}

impl<W: Write> FileOut<W> {
    ghost use Rattle.bc_file.specs.Counts.{none_made};

    /// A sink that gives to this writer.
    pub fn new(writer: W) -> FileOut<W>
        ensures { result ≡ record { counts = none_made; stops = 0 } }
    {
        FileOut {
            writer,
            counts: Counts::none(),
            stops: 0,
        }
    }

    /// How many calls were made, and how many of them failed.
    pub fn counts(&self) -> Counts
        ensures { result ≡ self.now.counts }
    {
        self.counts
    }
}

impl<W: Write> Sink for FileOut<W> {
    ghost use Rattle.bc_disk.specs.Stream.{IsPut};
    ghost use Rattle.bc_file.specs.Counts.{counted};
    ghost use Rattle.bc_file.specs.Stream.{untold_sink};

    ghost facts = { untold_sink };

    /// Writes once and flushes, so it may take fewer bytes than there are. Fails where the writer
    /// does; after a flush that failed it may have taken bytes of the piece.
    fn put(&mut self, bytes: &[u8]) -> Result<usize, Failed>
        ensures put { IsPut result bytes.now (untold_sink self.old) (untold_sink self.new) }
        ensures counts { self.new.counts ≡ counted result self.old.counts }
    {
        let outcome = write_out(&mut self.writer, bytes);
        let taken = self.counts.count(outcome);
        if matches!(taken, Ok(0)) && !bytes.is_empty() {
            self.stops = self.stops.saturating_add(1);
        }
        taken
    }
}
