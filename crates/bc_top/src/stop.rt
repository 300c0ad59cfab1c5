//! Why a call ends before its command is done.
ghost use Rattle.std.specs.Prelude.{◌≡◌};
ghost use Rattle.bc_output.specs.Message.{message_text};
ghost use Rattle.bc_top.specs.Ended.{IsPutOf};
ghost use Rattle.bc_top.specs.Stops.{check_stop, message_of, open_stop, pair_stop, status_of, trace_stop, words_stop};

use bc_check::CheckError;
use bc_disk::disk::Device;
use bc_disk::stream::Sink;
use bc_output::message::{Message, Origin, print_message};
use bc_output::put::put_all;
use bc_output::status::Status;
use bc_pair::error::PairError;
use bc_replay::OpenError;
use bc_script::script::{ScriptError, TraceError};
use bc_words::WordsError;

/// Why a call ends before its command is done.
#[derive(Clone, Copy, Debug, PartialEq, Eq, Drop)]
pub enum Stop {
    /// The words aren't those of a command.
    Usage,
    /// A line of the trace was refused.
    Trace(ScriptError),
    /// The source of the trace failed.
    Source,
    /// A call of this device failed.
    Fault(Device),
    /// The superblock of this device has the fault of this number.
    Superblock { device: Device, number: u8 },
    /// What the pair holds behind its superblocks was refused for the reason of this number.
    Image(u8),
    /// The pair has a cache, over which a write or a round isn't served yet.
    Unserved,
    /// There was no memory.
    Memory,
}

impl Stop {
    // The line that says so.
    fn message(&self) -> Message
        ensures { result ≡ message_of self.now }
    {
        match self {
            Stop::Usage => Message::Usage,
            Stop::Trace(error) => Message::Trace {
                line: error.line,
                why: error.why.number(),
            },
            Stop::Superblock { device, number } => Message::Superblock {
                device: *device,
                number: *number,
            },
            Stop::Image(number) => Message::Image(*number),
            Stop::Unserved => Message::Unserved,
            Stop::Fault(device) => Message::Fault(Origin::Disk(*device)),
            Stop::Source => Message::Fault(Origin::Source),
            Stop::Memory => Message::Memory,
        }
    }
}

impl From<OpenError> for Stop {
    ghost from_gives = { λ error stop. stop ≡ open_stop error };

    fn from(error: OpenError) -> Stop {
        match error {
            OpenError::Super { device, why } => Stop::Superblock {
                device,
                number: why.number(),
            },
            OpenError::Fault(device) => Stop::Fault(device),
            OpenError::Memory => Stop::Memory,
            error => Stop::Image(error.number()),
        }
    }
}

impl From<PairError> for Stop {
    ghost from_gives = { λ error stop. stop ≡ pair_stop error };

    fn from(error: PairError) -> Stop {
        match error {
            PairError::Superblock { device, why } => Stop::Superblock {
                device,
                number: why.number(),
            },
            PairError::Fault(device) => Stop::Fault(device),
            PairError::Memory => Stop::Memory,
        }
    }
}

impl From<WordsError> for Stop {
    ghost from_gives = { λ error stop. stop ≡ words_stop error };

    fn from(error: WordsError) -> Stop {
        match error {
            WordsError::Usage => Stop::Usage,
            WordsError::Memory => Stop::Memory,
        }
    }
}

impl From<TraceError> for Stop {
    ghost from_gives = { λ error stop. stop ≡ trace_stop error };

    fn from(error: TraceError) -> Stop {
        match error {
            TraceError::Script(error) => Stop::Trace(error),
            TraceError::Fault => Stop::Source,
            TraceError::Memory => Stop::Memory,
        }
    }
}

impl From<CheckError> for Stop {
    ghost from_gives = { λ error stop. stop ≡ check_stop error };

    fn from(error: CheckError) -> Stop {
        match error {
            CheckError::Open(why) => Stop::from(why),
            CheckError::Fault(device) => Stop::Fault(device),
            CheckError::Memory => Stop::Memory,
        }
    }
}

/// Puts the line that says why the command isn't done, and answers the status.
pub fn tell<K: Sink>(stop: &Stop, out: &mut K) -> Status
    ensures status { result ≡ status_of stop.now }
    ensures put { IsPutOf (message_text (message_of stop.now)) (K.facts out.old) (K.facts out.new) }
{
    let message = stop.message();
    let _put = put_all(out, print_message(message).as_bytes());
    message.status()
}
