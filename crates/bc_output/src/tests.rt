ghost use Rattle.std.specs.Prelude.{All, IfOk};
ghost use Rattle.bc_disk.specs.Text.{facts_of_taken};
ghost use Rattle.bc_script.specs.Answer.{IsPrintable};

use crate::answers::put_answers;
use crate::message::{Message, Origin, print_message};
use crate::put::{WriteFault, put_all};
use bc_disk::disk::{Device, Failed};
use bc_disk::mem_sink::MemSink;
use bc_disk::stream::Sink;
use bc_model::values::Values;
use bc_script::answer::{Answer, Refusal};
use std::alloc::{AllocError, Global};
use std::test::Fail;

// Takes a byte at a time.
#[derive(Drop)]
struct Slow {
    sink: MemSink,
}

impl Sink for Slow {
    ghost facts = { λ s. facts_of_taken s.sink };

    fn put(&mut self, bytes: &[u8]) -> Result<usize, Failed> {
        self.sink.put(&bytes[..bytes.len().min(1)])
    }
}

// A sink with this room, of which this put fails.
fn slow_sink(alloc: Global, room: usize, failing: u64) -> Result<Slow, AllocError> {
    let mut sink = MemSink::new(alloc, room)?;
    sink.fail(failing)?;
    Ok(Slow { sink })
}

#[test]
fn a_text_is_put(rt: HostRuntime) -> Result<(), Fail> {
    let cases: [(usize, u64, Result<(), WriteFault>, &[u8]); 5] = [
        (9, 9, Ok(()), b"usage\n"),
        (6, 7, Ok(()), b"usage\n"),
        (5, 9, Err(WriteFault::TookNothing), b"usage"),
        (0, 9, Err(WriteFault::TookNothing), b""),
        (9, 2, Err(WriteFault::Failed), b"u"),
    ];
    for (room, failing, put, taken) in cases {
        let mut out = slow_sink(rt.alloc(), room, failing)?;
        assert_eq!(rt; put_all(&mut out, b"usage\n"), put);
        assert_eq!(rt; out.sink.bytes(), taken);
    }
    let mut full = MemSink::new(rt.alloc(), 0)?;
    assert_eq!(rt; put_all(&mut full, b""), Ok(()));
    assert_eq!(rt; full.calls(), 0);
    Ok(())
}

#[test]
fn answers_are_put(rt: HostRuntime) -> Result<(), Fail> {
    let mut values = Values::new(rt.alloc());
    values.push_pattern(7, 5, 2)?;
    let answers = [
        Answer::Done,
        Answer::Refused(Refusal::Halted(Device::Backing)),
        Answer::Runs { first: 5, values },
        Answer::Refused(Refusal::OutOfRange),
    ];
    let text = b"done\nhalted backing\n7x2\nout-of-range\n";
    let cases = [
        (99, 38, Ok(()), 37),
        (99, 21, Err(WriteFault::Failed), 20),
        (22, 99, Err(WriteFault::TookNothing), 22),
    ];
    for (room, failing, put, taken) in cases {
        let mut out = slow_sink(rt.alloc(), room, failing)?;
        let printed = put_answers(rt.alloc(), &answers, &mut out);
        assert_eq!(rt; printed.put, put);
        assert!(rt; !printed.memory_missed);
        assert!(rt; taken <= text.len());
        assert_eq!(rt; *out.sink.bytes(), text[..taken]);
    }
    Ok(())
}

#[test]
fn messages_are_printed(rt: HostRuntime) {
    let superblock = |device, number| Message::Superblock { device, number };
    let cases: [(Message, &[u8]); 13] = [
        (Message::Usage, b"usage\n"),
        (Message::Trace { line: 1, why: 2 }, b"trace 1 2\n"),
        (
            Message::Trace {
                line: u32::MAX,
                why: 10,
            },
            b"trace 4294967295 10\n",
        ),
        (superblock(Device::Cache, 0), b"superblock cache 0\n"),
        (
            superblock(Device::Backing, 255),
            b"superblock backing 255\n",
        ),
        (Message::Image(2), b"image 2\n"),
        (Message::Image(255), b"image 255\n"),
        (Message::Unserved, b"unserved\n"),
        (Message::Unsound(u32::MAX), b"unsound 4294967295\n"),
        (
            Message::Fault(Origin::Disk(Device::Cache)),
            b"fault cache\n",
        ),
        (
            Message::Fault(Origin::Disk(Device::Backing)),
            b"fault backing\n",
        ),
        (Message::Fault(Origin::Source), b"fault source\n"),
        (Message::Memory, b"memory\n"),
    ];
    for (message, text) in cases {
        assert_eq!(rt; *print_message(message).as_bytes(), *text);
    }
}

// 1,000 answers, of five bytes each with the newline.
fn many_answers(alloc: Global) -> Result<Vec<Answer>, AllocError>
    ensures { IfOk result (λ answers. All IsPrintable answers.items) }
{
    let mut answers = Vec::new(alloc);
    let mut count = 0u32;
    while count < 1000 {
        answers.push(Answer::Done)?;
        count += 1;
    }
    Ok(answers)
}

#[test]
fn lines_are_gathered(rt: HostRuntime) -> Result<(), Fail> {
    let answers = many_answers(rt.alloc())?;
    // 820 lines of five bytes are the first that make 4,096 bytes.
    for (failing, put, taken) in [(3, Ok(()), 5000), (2, Err(WriteFault::Failed), 4100)] {
        let mut out = MemSink::new(rt.alloc(), 6000)?;
        out.fail(failing)?;
        let printed = put_answers(rt.alloc(), &answers, &mut out);
        assert_eq!(rt; printed.put, put);
        assert_eq!(rt; out.bytes().len(), taken);
        assert_eq!(rt; out.calls(), 2);
    }
    Ok(())
}
