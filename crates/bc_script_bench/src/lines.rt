//! Random lines of traces, read by the reader of traces and by the plain one.
use bc_disk::mem_source::MemSource;
use bc_plain::line::form_of;
use bc_script::form::Form;
use bc_script::line::Action;
use bc_script::script::TraceError;
use bc_script::trace::read_trace;
use std::alloc::{AllocError, Global};

// What lines are made of: single bytes, and words that are near the edge of something.
const PARTS: [&str; 32] = [
    " ",
    " ",
    " ",
    "1",
    "0",
    "2",
    "9",
    "w",
    "r",
    "f",
    "b",
    "c",
    "m",
    "W",
    "#",
    "-",
    "1 ",
    "1 w ",
    "1 r ",
    " 8",
    " 2048",
    " 2049",
    " 1099511627776",
    " 1099511627777",
    " 18446744073709551615",
    " 18446744073709551616",
    " 007",
    "16 ",
    "17 ",
    " x",
    "1 w 0 8 ",
    "                                ",
];

/// How many lines both readers read, how many both refused for one reason, and at how many they
/// differed.
#[derive(Clone, Copy, Drop)]
pub struct Compared {
    pub read: u32,
    pub refused: u32,
    pub differing: u32,
}

// The number of the reason for which the plain reader refuses a line, or 0. Of what the grammar
// takes other workers than the first, and forced writes, aren't served yet.
fn plain_reason(alloc: Global, text: &[u8]) -> Result<u8, AllocError> {
    Ok(match form_of(alloc, text)? {
        Err(why) => why.number(),
        Ok(Form::Asked { worker, .. }) if worker != 1 => 5,
        Ok(
            Form::Asked {
                action: Action::ForcedWrite { .. },
                ..
            },
        ) => 2,
        Ok(_) => 0,
    })
}

// The same of the reader of traces; the greatest number where it failed.
fn reason(alloc: Global, text: &[u8]) -> Result<u8, AllocError> {
    let bytes = Vec::from_slice(alloc, text)?;
    match read_trace(alloc, &mut MemSource::new(alloc, bytes)) {
        Ok(_) => Ok(0),
        Err(TraceError::Script(e)) => Ok(e.why.number()),
        Err(_) => Ok(u8::MAX),
    }
}

// The next number of a generator.
fn next(state: &mut u32) -> u32 {
    *state = state.wrapping_mul(1_664_525).wrapping_add(1_013_904_223);
    *state >> 8
}

// A line of up to eight parts.
fn line(alloc: Global, state: &mut u32) -> Result<String, AllocError> {
    let mut text = String::new(alloc);
    for _part in 0..next(state) % 9 {
        text.push_str(PARTS[(next(state) % 32) as usize])?;
    }
    Ok(text)
}

/// Reads so many random lines with both readers.
pub fn compare(alloc: Global, lines: u32) -> Result<Compared, AllocError> {
    let mut state = 1;
    let mut all = Compared {
        read: 0,
        refused: 0,
        differing: 0,
    };
    for _line in 0..lines {
        let text = line(alloc, &mut state)?;
        let why = plain_reason(alloc, text.as_bytes())?;
        if why != reason(alloc, text.as_bytes())? {
            all.differing = all.differing.saturating_add(1);
        } else if why == 0 {
            all.read = all.read.saturating_add(1);
        } else {
            all.refused = all.refused.saturating_add(1);
        }
    }
    Ok(all)
}
