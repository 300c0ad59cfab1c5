//! Streams that move one byte in each call.
ghost use Rattle.bc_disk.specs.Text.{facts_of_left, facts_of_taken};

use bc_disk::disk::Failed;
use bc_disk::mem_sink::MemSink;
use bc_disk::mem_source::MemSource;
use bc_disk::stream::{Sink, Source};

/// A source that gives one byte in each call.
#[derive(Drop)]
pub struct SlowSource {
    pub inner: MemSource,
}

impl Source for SlowSource {
    ghost facts = { λ s. facts_of_left s.inner };

    fn next(&mut self, into: &mut [u8]) -> Result<usize, Failed> {
        let one = into.len().min(1);
        self.inner.next(&mut into[..one])
    }
}

/// A sink that takes one byte in each call.
#[derive(Drop)]
pub struct SlowSink {
    pub inner: MemSink,
}

impl Sink for SlowSink {
    ghost facts = { λ s. facts_of_taken s.inner };

    fn put(&mut self, bytes: &[u8]) -> Result<usize, Failed> {
        let one = bytes.len().min(1);
        self.inner.put(&bytes[..one])
    }
}
