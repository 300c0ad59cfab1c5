//! Calls that take memory, of each kind one: where a call finds none it has to say so, and to have
//! changed nothing.
ghost use Rattle.bc_script.specs.Answer.{IsPrintable};

use bc_disk::disk::Device;
use bc_disk::mem_sink::MemSink;
use bc_disk::mem_source::MemSource;
use bc_model::values::Values;
use bc_output::answers::put_answers;
use bc_script::answer::{Answer, Asked, Refusal};
use bc_script::generator::generate;
use bc_script::print::print_answer;
use bc_script::script::TraceError;
use bc_script::summary::{Summary, print_summary};
use bc_script::trace::read_trace;
use bc_words::{WordsError, read_words};
use std::alloc::{AllocError, Global};

/// A kind of calls.
#[derive(Clone, Copy, Debug, PartialEq, Eq, Drop)]
pub enum Call {
    /// A trace is read that has more lines than room is taken for at first, and a line that comes
    /// in two parts.
    Read,
    /// A refusal is printed.
    PrintRefusal,
    /// Runs of each kind are printed.
    PrintRuns,
    /// Lines are generated.
    Generate,
    /// A summary is printed.
    Summarize,
    /// Words that spell a command are read.
    Words,
    /// Words that spell none are read.
    BadWords,
    /// Answers are put to a sink.
    Put,
}

/// What a call answered.
#[derive(Clone, Copy, Debug, PartialEq, Eq, Drop)]
pub enum Outcome {
    /// What it answers with ample memory.
    Whole,
    /// That it found no memory.
    Memory,
    /// Something else.
    Other,
}

/// All kinds of calls.
pub const CALLS: [Call; 8] = [
    Call::Read,
    Call::PrintRefusal,
    Call::PrintRuns,
    Call::Generate,
    Call::Summarize,
    Call::Words,
    Call::BadWords,
    Call::Put,
];

fn read(alloc: Global) -> Result<Outcome, AllocError> {
    let mut text = vec![in alloc; b'\n'; 4092]?;
    text.extend_from_slice(b"1 w 0 8 7\n")?;
    text.extend_from_slice(&vec![in alloc; b'\n'; 900]?)?;
    Ok(match read_trace(alloc, &mut MemSource::new(alloc, text)) {
        Ok(script) if script.len() == 4993 => Outcome::Whole,
        Err(TraceError::Memory) => Outcome::Memory,
        _ => Outcome::Other,
    })
}

// Prints an answer behind other bytes.
fn print(alloc: Global, answer: &Answer, text: &[u8]) -> Result<Outcome, AllocError>
    requires { IsPrintable answer.now }
{
    let mut into = Vec::from_slice(alloc, b"before ")?;
    let printed = print_answer(answer, &mut into);
    let bytes = into.as_slice();
    Ok(match printed {
        Ok(()) if bytes.starts_with(b"before ") && bytes.ends_with(text) => Outcome::Whole,
        Err(AllocError) if bytes == b"before ".as_slice() => Outcome::Memory,
        _ => Outcome::Other,
    })
}

fn print_refusal(alloc: Global) -> Result<Outcome, AllocError> {
    let refusal = Refusal::NoBucket {
        purpose: Asked::Moving,
        none_len: 3,
        own_len: 4,
    };
    print(alloc, &Answer::Refused(refusal), b" no-bucket moving 3 4")
}

fn print_runs(alloc: Global) -> Result<Outcome, AllocError> {
    let mut values = Values::new(alloc);
    values.push_pattern(7, 0, 5)?;
    values.push(5, &[0; 512])?;
    values.push(6, &[0x9f; 512])?;
    let _count = values.len();
    print(alloc, &Answer::Runs { first: 0, values }, b"9f9f9f")
}

fn generate_lines(alloc: Global) -> Outcome {
    match generate(alloc, 1, 300, 8, 4096) {
        Ok(script) if script.len() == 300 => Outcome::Whole,
        Err(AllocError) => Outcome::Memory,
        _ => Outcome::Other,
    }
}

fn summarize(alloc: Global) -> Outcome {
    let summary = Summary {
        lines: 10,
        writes: 6,
        reads: 4,
        flushes: 0,
        refused: 0,
        sum: 804,
    };
    let wanted = b"lines 10 writes 6 reads 4 flushes 0 refused 0 sum 804";
    match print_summary(alloc, &summary) {
        Ok(text) if text.as_slice() == wanted.as_slice() => Outcome::Whole,
        Err(AllocError) => Outcome::Memory,
        _ => Outcome::Other,
    }
}

fn words_of(alloc: Global, text: &str) -> Result<Vec<String>, AllocError> {
    let mut words = Vec::new(alloc);
    for word in text.split(' ') {
        words.push(String::from_str(alloc, word)?)?;
    }
    Ok(words)
}

fn words(alloc: Global) -> Result<Outcome, AllocError> {
    let all = words_of(alloc, "serve --slots=4 --mode writeback --cutoff 0")?;
    Ok(match read_words(alloc, &all) {
        Ok(_) => Outcome::Whole,
        Err(WordsError::Memory) => Outcome::Memory,
        Err(WordsError::Usage) => Outcome::Other,
    })
}

fn bad_words(alloc: Global) -> Result<Outcome, AllocError> {
    let all = words_of(alloc, "serve --mode fast --cutoff 0")?;
    Ok(match read_words(alloc, &all) {
        Ok(_) => Outcome::Other,
        Err(WordsError::Memory) => Outcome::Memory,
        Err(WordsError::Usage) => Outcome::Whole,
    })
}

// Where a line finds no memory, `memory` is put in its place.
fn put(alloc: Global) -> Result<Outcome, AllocError> {
    let mut out = MemSink::new(alloc, 99)?;
    let answers = [
        Answer::Done,
        Answer::Refused(Refusal::Halted(Device::Backing)),
    ];
    let printed = put_answers(alloc, &answers, &mut out);
    let bytes = out.bytes();
    Ok(if printed.put.is_err() {
        Outcome::Other
    } else if !printed.memory_missed && bytes == b"done\nhalted backing\n".as_slice() {
        Outcome::Whole
    } else if printed.memory_missed
        && (bytes == b"memory\nhalted backing\n".as_slice()
            || bytes == b"done\nmemory\n".as_slice())
    {
        Outcome::Memory
    } else {
        Outcome::Other
    })
}

impl Call {
    /// Makes the call; no memory is found for what it is made with where this is an error.
    pub fn make(self, alloc: Global) -> Result<Outcome, AllocError> {
        match self {
            Call::Read => read(alloc),
            Call::PrintRefusal => print_refusal(alloc),
            Call::PrintRuns => print_runs(alloc),
            Call::Generate => Ok(generate_lines(alloc)),
            Call::Summarize => Ok(summarize(alloc)),
            Call::Words => words(alloc),
            Call::BadWords => bad_words(alloc),
            Call::Put => put(alloc),
        }
    }

    /// Its name.
    pub fn name(self) -> &'static str {
        match self {
            Call::Read => "read",
            Call::PrintRefusal => "print-refusal",
            Call::PrintRuns => "print-runs",
            Call::Generate => "generate",
            Call::Summarize => "summarize",
            Call::Words => "words",
            Call::BadWords => "bad-words",
            Call::Put => "put",
        }
    }
}

impl Outcome {
    /// Its name.
    pub fn name(self) -> &'static str {
        match self {
            Outcome::Whole => "whole",
            Outcome::Memory => "memory",
            Outcome::Other => "other",
        }
    }

    /// The status of a program in which it is the worst.
    pub fn status(self) -> u8 {
        match self {
            Outcome::Whole => 0,
            Outcome::Memory => 9,
            Outcome::Other => 10,
        }
    }
}
