//! The line of a message.
ghost use Rattle.std.specs.Prelude.{◌≡◌, ◌+◌, ◌<◌, ◌≤◌, [], ◌∷◌, ◌++◌, length};
ghost use Rattle.std.specs.Fmt.{decimal};
ghost use Rattle.bc_output.specs.Message.{message_text};

use bc_disk::disk::Device;
use std::marker::Model;

/// Where a fault comes from.
#[derive(Clone, Copy, Debug, PartialEq, Eq, Drop)]
pub enum Origin {
    /// A call of this device.
    Disk(Device),
    /// A read of the trace.
    Source,
}

/// Why the program ends as it does.
#[derive(Clone, Copy, Debug, PartialEq, Eq, Drop)]
pub enum Message {
    /// The words of the command are refused.
    Usage,
    /// This line of the trace is refused for this reason. The first line has number 1.
    Trace { line: u32, why: u8 },
    /// The superblock of this device has the fault with this number.
    Superblock { device: Device, number: u8 },
    /// What the pair holds behind its superblocks is refused for the reason with this number.
    Image(u8),
    /// The pair has a cache, over which a write or a round isn't served yet.
    Unserved,
    /// This line of the trace, and each behind it, isn't served: it found the index in memory as
    /// that of no sound pair, of which `check` names what is wrong, or a part of it busy. The first
    /// line has number 1.
    Unsound(u32),
    /// A device or the source failed.
    Fault(Origin),
    /// Memory ran out.
    Memory,
}

// The length of the longest line, `superblock backing 255` and its newline.
const LONGEST: usize = 23;

/// The bytes of a message's line, its newline included. It takes no memory.
#[derive(Drop)]
pub struct MessageLine {
    bytes: [u8; LONGEST],
    length: usize,
}

impl Model for MessageLine {
    ghost use Rattle.std.specs.Prelude.{ℕ, ◌≤◌, List, take};
    ghost use Rattle.bc_output.specs.declared.message.TheConstants.{LONGEST};

    ghost Value = { List ℕ };

    ghost view = { λ line. take line.length line.bytes };

    ghost invariant = { λ line. line.length ≤ LONGEST };
}

impl MessageLine {
    fn new(text: &[u8]) -> Self
        requires { length text.now ≤ LONGEST }
        ensures { result ≡ text.now }
    {
        let mut bytes = [0; LONGEST];
        bytes[..text.len()].copy_from_slice(text);
        MessageLine {
            bytes,
            length: text.len(),
        }
    }

    /// The bytes, the newline included.
    pub fn as_bytes(&self) -> &[u8]
        ensures { result.now ≡ self.now }
    {
        &self.bytes[..self.length]
    }

    fn push(&mut self, byte: u8)
        requires { length self.old < LONGEST }
        ensures { self.new ≡ self.old ++ byte ∷ [] }
    {
        self.bytes[self.length] = byte;
        self.length += 1;
    }

    // In decimal digits.
    fn push_number(&mut self, number: u32)
        requires { length self.old + length (decimal number) ≤ LONGEST }
        ensures { self.new ≡ self.old ++ decimal number }
    {
        if number >= 10 {
            self.push_number(number / 10);
        }
        self.push(b'0' + (number % 10) as u8);
    }
}

#[tactic(auto, using(crate::proofs::Digits::room))]
fn trace_line(line: u32, why: u8) -> MessageLine
    ensures { result ≡ message_text (Message.Trace line why) }
{
    let mut text = MessageLine::new(b"trace ");
    text.push_number(line);
    text.push(b' ');
    text.push_number(why as u32);
    text.push(b'\n');
    text
}

#[tactic(auto, using(crate::proofs::Digits::room))]
fn superblock_line(device: Device, number: u8) -> MessageLine
    ensures { result ≡ message_text (Message.Superblock device number) }
{
    let mut text = MessageLine::new(match device {
        Device::Cache => b"superblock cache ",
        Device::Backing => b"superblock backing ",
    });
    text.push_number(number as u32);
    text.push(b'\n');
    text
}

#[tactic(auto, using(crate::proofs::Digits::room))]
fn image_line(number: u8) -> MessageLine
    ensures { result ≡ message_text (Message.Image number) }
{
    let mut text = MessageLine::new(b"image ");
    text.push_number(number as u32);
    text.push(b'\n');
    text
}

#[tactic(auto, using(crate::proofs::Digits::room))]
fn unsound_line(line: u32) -> MessageLine
    ensures { result ≡ message_text (Message.Unsound line) }
{
    let mut text = MessageLine::new(b"unsound ");
    text.push_number(line);
    text.push(b'\n');
    text
}

/// The line of a message: `usage`; `trace`, the line and the reason; `superblock`, `cache` or
/// `backing` and the fault; `image` and the reason; `unserved`; `unsound` and the line; `fault` and
/// `cache`, `backing` or `source`; or `memory`. The numbers are decimal, and there is one space
/// between two words.
pub fn print_message(message: Message) -> MessageLine
    ensures { result ≡ message_text message }
{
    match message {
        Message::Usage => MessageLine::new(b"usage\n"),
        Message::Trace { line, why } => trace_line(line, why),
        Message::Superblock { device, number } => superblock_line(device, number),
        Message::Image(number) => image_line(number),
        Message::Unserved => MessageLine::new(b"unserved\n"),
        Message::Unsound(line) => unsound_line(line),
        Message::Fault(Origin::Disk(Device::Cache)) => MessageLine::new(b"fault cache\n"),
        Message::Fault(Origin::Disk(Device::Backing)) => MessageLine::new(b"fault backing\n"),
        Message::Fault(Origin::Source) => MessageLine::new(b"fault source\n"),
        Message::Memory => MessageLine::new(b"memory\n"),
    }
}
