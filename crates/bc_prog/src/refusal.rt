//! Why the program ends before it begins a command.
ghost use Rattle.std.specs.Prelude.{◌≡◌};
ghost use Rattle.bc_prog.specs.Refusal.{message_of, IsRefused};

use bc_disk::disk::Device;
use bc_disk::stream::Sink;
use bc_output::message::{Message, Origin, print_message};
use bc_output::put::put_all;
use bc_output::status::Status;

/// Why the program ends before it begins a command.
#[derive(Clone, Copy, Debug, PartialEq, Eq, Drop)]
pub enum Refusal {
    /// The command line has fewer than three words, or one that isn't UTF-8.
    Usage,
    /// The file of this device can't be opened for reading and writing, or isn't one with a size.
    NotOpened(Device),
    /// Memory ran out.
    Memory,
}

impl Refusal {
    /// The message that says it.
    fn message(self) -> Message
        ensures { result ≡ message_of self }
    {
        match self {
            Refusal::Usage => Message::Usage,
            Refusal::NotOpened(device) => Message::Fault(Origin::Disk(device)),
            Refusal::Memory => Message::Memory,
        }
    }
}

/// Puts the line of the refusal's message, and answers the status, which is the same where the line
/// can't be put.
pub fn refuse<K: Sink>(refusal: Refusal, out: &mut K) -> Status
    ensures { IsRefused refusal result (K.facts out.old) (K.facts out.new) }
{
    let message = refusal.message();
    let _ = put_all(out, print_message(message).as_bytes());
    message.status()
}
