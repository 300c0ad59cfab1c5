//! Where bytes come from and where they go.
ghost use Rattle.bc_disk.specs.Stream.{StreamFacts, IsNext, IsPut};

use crate::disk::Failed;

/// A source of bytes. A failed call leaves what it has left as it was.
pub trait Source {
    /// What is left, where it is told, and the count of faults.
    ghost facts: { Self → StreamFacts };

    /// Moves the next bytes to the front of `into`, and answers how many. 0 into a slice that isn't
    /// empty says that the input has ended.
    fn next(&mut self, into: &mut [u8]) -> Result<usize, Failed>
        ensures { IsNext result into.new (facts self.old) (facts self.new) };
}

/// A sink of bytes. A failed call leaves what it has taken as it was.
pub trait Sink {
    /// What was taken, where it is told, the count of faults, and that of puts which took nothing of a
    /// piece that isn't empty.
    ghost facts: { Self → StreamFacts };

    /// Takes bytes from the front of the piece, and answers how many.
    fn put(&mut self, bytes: &[u8]) -> Result<usize, Failed>
        ensures { IsPut result bytes.now (facts self.old) (facts self.new) };
}
