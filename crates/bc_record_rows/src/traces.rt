ghost use Rattle.std.specs.Prelude.{Some, IfOk};
ghost use Rattle.bc_disk.specs.Stream.{StreamFacts};
ghost use Rattle.bc_script.specs.Answer.{IsPrintable};

use bc_disk::disk::{Device, Failed};
use bc_disk::stream::Source;
use bc_model::values::Values;
use bc_script::answer::{Answer, Asked, Refusal};
use bc_script::generator::generate;
use bc_script::line::{Action, Line, Rounds};
use bc_script::print::print_answer;
use bc_script::script::TraceError;
use bc_script::summary::{print_summary, summary_of};
use bc_script::trace::read_trace;
use std::alloc::{AllocError, Global};
use std::test::Fail;

// Gives some bytes of the text at once, one more than `more` at most, and at its end may fail.
#[derive(Drop)]
struct Stream<'a> {
    text: &'a [u8],
    more: u16,
    fails: bool,
    faults: u64,
}

impl Source for Stream<'_> {
    ghost facts = { λ s. record { text = Some s.text.now; faults = s.faults; stops = 0 } };

    fn next(&mut self, into: &mut [u8]) -> Result<usize, Failed> {
        if self.fails && self.text.is_empty() {
            if self.faults != u64::MAX {
                self.faults += 1;
            }
            return Err(Failed);
        }
        let count = into.len().min(self.text.len()).min(self.more as usize + 1);
        let (front, rest) = self.text.split_at(count);
        into[..count].copy_from_slice(front);
        self.text = rest;
        Ok(count)
    }
}

fn source_of(text: &[u8], more: u16, fails: bool) -> Stream<'_> {
    Stream {
        text,
        more,
        fails,
        faults: 0,
    }
}

// The number of the line that is refused, and the number of the reason.
fn refused(alloc: Global, text: &[u8]) -> Option<(u32, u8)> {
    match read_trace(alloc, &mut source_of(text, 5000, false)) {
        Err(TraceError::Script(e)) => Some((e.line, e.why.number())),
        _ => None,
    }
}

fn is_read(alloc: Global, text: &[u8], more: u16, lines: &[Line]) -> bool {
    match read_trace(alloc, &mut source_of(text, more, false)) {
        Ok(script) => *script.lines() == *lines,
        Err(_) => false,
    }
}

fn request(phase: u32, action: Action) -> Line {
    Line::Request {
        worker: 1,
        phase,
        action,
    }
}

#[test]
fn lines_are_read(rt: HostRuntime) {
    let alloc = rt.alloc();
    let write = Action::Write {
        first: 0,
        count: 8,
        stamp: 7,
    };
    let read = Action::Read {
        first: 0,
        count: 10,
    };
    let lines = [write, read, Action::Flush].map(|action| request(0, action));
    assert!(rt; is_read(alloc, b"1 w 0 8 7\n1 r 0 10\n1 f\n", 5000, &lines));
    assert!(rt; is_read(alloc, b" 1  w 0 8 007 \n01 r 0 10\n1 f", 0, &lines));
    let long = b"1 w 00000000000000000000 8 7\n0000000000000000000001 r 0 10\n1 f ";
    assert!(rt; is_read(alloc, long, 40, &lines));
    assert!(rt; is_read(alloc, b"", 0, &[]));
    let lines = [
        Line::Silent,
        request(0, Action::Round(Rounds::Writeback)),
        Line::Silent,
        Line::Silent,
        request(1, Action::Round(Rounds::Tracing)),
        Line::Silent,
        Line::Silent,
        request(2, Action::Round(Rounds::Moving)),
    ];
    assert!(rt; is_read(alloc, b"#1 x\n1 b\n  -\n\n1 c\n- \n  \n1 m", 3, &lines));
    assert_eq!(rt; refused(alloc, b"1 r 1099511627776 2048"), None);
    assert_eq!(rt; refused(alloc, b"1 w 0 1 18446744073709551615"), None);
}

#[test]
fn lines_are_refused(rt: HostRuntime) -> Result<(), Fail> {
    let alloc = rt.alloc();
    let texts: [(&[u8], u32, u8); 23] = [
        (b"1 x 0 8", 1, 2),
        (b"1", 1, 2),
        (b"1 ww 0 1 1", 1, 2),
        (b"1 f\n1 w 0 1", 2, 2),
        (b"1 r 0 1 9", 1, 2),
        (b"1 b 1", 1, 2),
        (b"1 w 0 0", 1, 4),
        (b"1 r 0 0", 1, 4),
        (b"1 r 0 2049", 1, 4),
        (b"1 r 1099511627777 x", 1, 4),
        (b"1 w 0 8 0", 1, 4),
        (b"1 W 0 8 0", 1, 4),
        (b"1 r z 1", 1, 3),
        (b"1 w 0 1 18446744073709551616", 1, 3),
        (b"1 r -1 1", 1, 3),
        (b"- 1", 1, 3),
        (b" # a comment", 1, 3),
        (b"1\tf", 1, 3),
        (b"0 f", 1, 5),
        (b"17 r 0 1", 1, 5),
        (b"2 f", 1, 5),
        (b"16 r z 1", 1, 3),
        (b"#\n\n-\n1 q\n17 f\n", 4, 2),
    ];
    for (text, line, why) in texts {
        assert_eq!(rt; refused(alloc, text), Some((line, why)));
    }
    let mut long = [b' '; 81];
    assert_eq!(rt; refused(alloc, &long), Some((1, 1)));
    assert_eq!(rt; refused(alloc, &long[..80]), None);
    long[0] = b'#';
    assert_eq!(rt; refused(alloc, &long), Some((1, 1)));
    long[0] = b'1';
    long[79] = b'f';
    assert_eq!(rt; refused(alloc, &long[..80]), None);
    let lines = vec![in alloc; b'\n'; 262_145]?;
    assert_eq!(rt; refused(alloc, &lines), Some((262_145, 6)));
    assert_eq!(rt; refused(alloc, &lines[1..]), None);
    Ok(())
}

#[test]
fn a_fault_is_told(rt: HostRuntime) {
    let mut source = source_of(b"1 f\n1 ", 3, true);
    assert!(rt; matches!(read_trace(rt.alloc(), &mut source), Err(TraceError::Fault)));
    assert_eq!(rt; source.faults, 1);
}

fn is_printed(alloc: Global, answer: &Answer, text: &[u8]) -> bool
    requires { IsPrintable answer.now }
{
    let mut into = Vec::new(alloc);
    print_answer(answer, &mut into).is_ok() && *into.as_slice() == *text
}

#[test]
fn refusals_are_printed(rt: HostRuntime) {
    let alloc = rt.alloc();
    assert!(rt; is_printed(alloc, &Answer::Done, b"done"));
    assert!(rt; is_printed(alloc, &Answer::Silent, b""));
    let none = Refusal::NoBucket {
        purpose: Asked::Tree,
        none_len: 0,
        own_len: 0,
    };
    let own = Refusal::NoBucket {
        purpose: Asked::Moving,
        none_len: 3,
        own_len: 4_294_967_295,
    };
    let node = Refusal::Node {
        bucket: 1_048_575,
        why: 2,
    };
    let texts: [(Refusal, &[u8]); 10] = [
        (none, b"no-bucket tree 0 0"),
        (own, b"no-bucket moving 3 4294967295"),
        (Refusal::JournalEnd, b"journal-end"),
        (node, b"node 1048575 2"),
        (Refusal::OutOfRange, b"out-of-range"),
        (Refusal::Fault(Device::Cache), b"fault cache"),
        (Refusal::Fault(Device::Backing), b"fault backing"),
        (Refusal::Halted(Device::Cache), b"halted cache"),
        (Refusal::Halted(Device::Backing), b"halted backing"),
        (Refusal::Memory, b"memory"),
    ];
    for (refusal, text) in texts {
        assert!(rt; is_printed(alloc, &Answer::Refused(refusal), text));
    }
}

// The runs of values that begin at sector 0.
fn are_printed(alloc: Global, values: Values, text: &[u8]) -> bool {
    let _count = values.len();
    is_printed(alloc, &Answer::Runs { first: 0, values }, text)
}

#[test]
fn runs_are_printed(rt: HostRuntime) -> Result<(), Fail> {
    let alloc = rt.alloc();
    let mut values = Values::new(alloc);
    values.push_pattern(7, 0, 5)?;
    values.push_pattern(7, 5, 3)?;
    values.push(8, &[0; 512])?;
    values.push(9, &[0; 512])?;
    assert!(rt; are_printed(alloc, values, b"7x8 zerox2"));
    let mut values = Values::new(alloc);
    values.push(0, &[0; 512])?;
    values.push_pattern(7, 1, 2)?;
    values.push(3, &[0; 512])?;
    assert!(rt; are_printed(alloc, values, b"zerox1 7x2 zerox1"));
    Ok(())
}

#[test]
fn single_runs_are_printed(rt: HostRuntime) -> Result<(), Fail> {
    let alloc = rt.alloc();
    let mut values = Values::new(alloc);
    values.push_pattern(7, 0, 3)?;
    assert!(rt; are_printed(alloc, values, b"7x3"));
    let mut values = Values::new(alloc);
    values.push(0, &[0; 512])?;
    values.push(1, &[0; 512])?;
    assert!(rt; are_printed(alloc, values, b"zerox2"));
    let mut values = Values::new(alloc);
    values.push_pattern(7, 1, 1)?;
    assert!(rt; !are_printed(alloc, values, b"7x1"));
    Ok(())
}

#[test]
fn other_values_are_printed(rt: HostRuntime) -> Result<(), Fail> {
    let alloc = rt.alloc();
    let mut values = Values::new(alloc);
    values.push(0, &[0x9f; 512])?;
    values.push_pattern(7, 1, 1)?;
    let mut text = Vec::from_slice(alloc, b"raw:")?;
    for _ in 0..512 {
        text.extend_from_slice(b"9f")?;
    }
    text.extend_from_slice(b" 7x1")?;
    assert!(rt; are_printed(alloc, values, &text));
    Ok(())
}

// The answer of a read that sees these runs of a stamp, or of zeros; of another line where there are none.
fn answer_of(alloc: Global, runs: &[(u64, u32)]) -> Result<Answer, AllocError>
    ensures { IfOk result IsPrintable }
{
    if runs.is_empty() {
        return Ok(Answer::Done);
    }
    let mut values = Values::new(alloc);
    for (stamp, count) in runs {
        for _ in 0..*count {
            let sector = u64::from(values.len());
            if *stamp > 0 && sector < 64 {
                values.push_pattern(*stamp, sector, 1)?;
            } else if sector < 64 {
                values.push(sector, &[0; 512])?;
            }
        }
    }
    let fits = u64::from(values.len()) < 1 << 32;
    prove!(fits);
    Ok(Answer::Runs { first: 0, values })
}

// The answers to the ten lines of one worker over 64 sectors, of which the reads at last see three
// writes.
#[test]
fn a_trace_is_summed_up(rt: HostRuntime) -> Result<(), Fail> {
    let alloc = rt.alloc();
    let script = generate(alloc, 1, 10, 1, 64)?;
    let mut answers = Vec::new(alloc);
    for runs in [
        &[(0, 57)][..],
        &[(0, 16)],
        &[],
        &[],
        &[],
        &[],
        &[],
        &[],
        &[(8, 32), (7, 11)],
        &[(8, 32), (7, 29), (6, 2)],
    ] {
        answers.push(answer_of(alloc, runs)?)?;
    }
    let text = print_summary(alloc, &summary_of(script.lines(), &answers))?;
    let wanted = b"lines 10 writes 6 reads 4 flushes 0 refused 0 sum 804";
    assert!(rt; text.as_slice() == wanted.as_slice());
    Ok(())
}

// The lines for eight workers over 4,096 sectors, by numbers that were computed apart.
#[test]
fn many_lines_are_generated(rt: HostRuntime) -> Result<(), Fail> {
    let script = generate(rt.alloc(), 5, 20_000, 8, 4096)?;
    let lines = script.lines();
    let summary = summary_of(lines, &[]);
    assert_eq!(rt; summary.lines, 20_000);
    assert_eq!(rt; summary.writes, 9_929);
    assert_eq!(rt; summary.reads, 7_518);
    assert_eq!(rt; summary.flushes, 2_553);
    let write = Action::Write {
        first: 557,
        count: 34,
        stamp: 2,
    };
    let read = Action::Read {
        first: 3748,
        count: 55,
    };
    for (place, worker, action) in [(0, 1, Action::Flush), (1, 2, write), (19_999, 8, read)] {
        let line = Line::Request {
            worker,
            phase: 0,
            action,
        };
        assert!(rt; lines.get(place) == Some(&line));
    }
    Ok(())
}
