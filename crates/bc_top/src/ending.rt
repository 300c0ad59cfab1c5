//! How a run ends: what is put of its answers, and its status.
ghost use Rattle.std.specs.Prelude.{◌≡◌, ◌||◌, All};
ghost use Rattle.std.specs.List.{list_any};
ghost use Rattle.bc_script.specs.Answer.{IsPrintable};
ghost use Rattle.bc_top.specs.Ended.{IsEnd, IsPutBehind, status_of_end, message_of_closing, message_of_end, says_fault, says_memory, says_node};

use bc_disk::stream::Sink;
use bc_output::answers::put_answers;
use bc_output::message::{Message, Origin, print_message};
use bc_output::put::{WriteFault, put_all};
use bc_output::status::Status;
use bc_script::answer::{Answer, Refusal};
use bc_sound_reads::bc_serve::closing::Closing;
use std::alloc::Global;

// Whether an answer says that a device failed, or had failed before.
fn says_fault(answers: &[Answer]) -> bool
    ensures { result ≡ list_any says_fault answers.now }
{
    answers.iter().any(|answer| {
        matches!(
            answer,
            Answer::Refused(Refusal::Fault(_) | Refusal::Halted(_))
        )
    })
}

// Whether an answer says that there was no memory.
fn says_memory(answers: &[Answer]) -> bool
    ensures { result ≡ list_any says_memory answers.now }
{
    answers.iter().any(|answer| matches!(answer, Answer::Refused(Refusal::Memory)))
}

// Whether an answer says that a node is damaged.
fn says_node(answers: &[Answer]) -> bool
    ensures { result ≡ list_any says_node answers.now }
{
    answers.iter().any(|answer| matches!(answer, Answer::Refused(Refusal::Node { .. })))
}

// The status of a run: whether a line says fault, how it was closed, whether a line says node or
// the run stopped at one, whether memory was missed for a line, and whether not every line was put.
fn status_of_end(fault: bool, closing: Closing, unsound: bool, memory: bool, cut: bool) -> Status
    ensures { result ≡ status_of_end fault closing unsound memory cut }
{
    if fault || matches!(closing, Closing::Failed(_) | Closing::Halted(_)) {
        Status::Device
    } else if unsound {
        Status::Image
    } else if memory || closing == Closing::Memory {
        Status::Memory
    } else if cut {
        Status::Sink
    } else {
        Status::Done
    }
}

// The message of a closing: whether a line says fault, and whether one says node or memory.
fn message_of_closing(fault: bool, closing: Closing, told: bool) -> Option<Message>
    ensures { result ≡ message_of_closing fault closing told }
{
    match closing {
        Closing::Failed(device) | Closing::Halted(device) if !fault => {
            Some(Message::Fault(Origin::Disk(device)))
        }
        Closing::Memory if !fault && !told => Some(Message::Memory),
        _ => None,
    }
}

// The message behind the lines, where none of them says why not all is done.
fn message_of_end(
    stopped: Option<u32>,
    fault: bool,
    closing: Closing,
    told: bool,
) -> Option<Message>
    ensures { result ≡ message_of_end stopped fault closing told }
{
    match stopped {
        Some(line) => Some(Message::Unsound(line)),
        None => message_of_closing(fault, closing, told),
    }
}

// Puts the message, if there is one, behind lines that were put whole.
fn put_message<K: Sink>(put: Result<(), WriteFault>, message: Option<Message>, out: &mut K)
    ensures { IsPutBehind put message (K.facts out.old) (K.facts out.new) }
{
    if let (Ok(()), Some(message)) = (put, message) {
        let _put = put_all(out, print_message(message).as_bytes());
    }
}

/// Puts the lines of the answers in order, and behind them a message where none of them says why
/// not all is done, or where the run stopped at the line of this number; answers the status. A line
/// for whose text no memory is found is put as `memory`.
pub fn report<K: Sink>(
    alloc: Global,
    answers: &[Answer],
    stopped: Option<u32>,
    closing: Closing,
    out: &mut K,
) -> Status
    requires { All IsPrintable answers.now }
    ensures { IsEnd result answers.now stopped closing (K.facts out.old) (K.facts out.new) }
{
    let printed = put_answers(alloc, answers, out);
    let fault = says_fault(answers);
    let node = says_node(answers);
    let memory = says_memory(answers) | printed.memory_missed;
    let message = message_of_end(stopped, fault, closing, node | memory);
    put_message(printed.put, message, out);
    status_of_end(
        fault,
        closing,
        node | stopped.is_some(),
        memory,
        printed.put.is_err(),
    )
}
