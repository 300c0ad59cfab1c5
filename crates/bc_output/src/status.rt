//! With which status a call ends.
ghost use Rattle.std.specs.Prelude.{◌≡◌};
ghost use Rattle.bc_output.specs.Status.{number_of, status_of};

use crate::message::{Message, Origin};

/// How a call ended. The program answers its number to the system.
#[derive(Clone, Copy, Debug, PartialEq, Eq, Drop)]
pub enum Status {
    /// All was done.
    Done,
    /// The words are those of no command.
    Usage,
    /// A line of the trace is refused.
    Trace,
    /// A superblock is refused.
    Superblock,
    /// What stands behind the superblocks is refused, or a line found it unsound or busy; or the
    /// pair has a cache, over which a write or a round isn't served yet.
    Image,
    /// A device failed, or couldn't be opened.
    Device,
    /// The source of the trace failed.
    Source,
    /// The sink failed, or took nothing.
    Sink,
    /// There was no memory.
    Memory,
}

impl Status {
    /// The number that the system is told.
    pub fn number(self) -> u8
        ensures { result ≡ number_of self }
    {
        match self {
            Status::Done => 0,
            Status::Usage => 2,
            Status::Trace => 3,
            Status::Superblock => 4,
            Status::Image => 5,
            Status::Device => 6,
            Status::Source => 7,
            Status::Sink => 8,
            Status::Memory => 9,
        }
    }
}

impl Message {
    /// The status of a call that ends with this message.
    pub fn status(self) -> Status
        ensures { result ≡ status_of self }
    {
        match self {
            Message::Usage => Status::Usage,
            Message::Trace { .. } => Status::Trace,
            Message::Superblock { .. } => Status::Superblock,
            Message::Image(_) | Message::Unserved | Message::Unsound(_) => Status::Image,
            Message::Fault(Origin::Disk(_)) => Status::Device,
            Message::Fault(Origin::Source) => Status::Source,
            Message::Memory => Status::Memory,
        }
    }
}
