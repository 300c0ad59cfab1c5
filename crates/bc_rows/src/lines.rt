//! Random lines of traces, read by the reader of traces and by a plain one.
use bc_disk::mem_source::MemSource;
use bc_script::script::TraceError;
use bc_script::trace::read_trace;
use std::alloc::{AllocError, Global};
use std::test::Fail;

// How many lines are made. More of them take the time of a test.
const ROUNDS: u32 = 400;

// What lines are made of: single bytes, and words that are near the edge of something.
const PARTS: [&str; 32] = [
    " ",
    " ",
    " ",
    "1",
    "0",
    "2",
    "9",
    "w",
    "r",
    "f",
    "b",
    "c",
    "m",
    "W",
    "#",
    "-",
    "1 ",
    "1 w ",
    "1 r ",
    " 8",
    " 2048",
    " 2049",
    " 1099511627776",
    " 1099511627777",
    " 18446744073709551615",
    " 18446744073709551616",
    " 007",
    "16 ",
    "17 ",
    " x",
    "1 w 0 8 ",
    "                                ",
];

fn plain_number(word: &str) -> Option<u64> {
    if word.starts_with('+') {
        return None;
    }
    word.parse().ok()
}

// Why a number isn't in this range, or 0.
fn plain_range(word: Option<&str>, least: u64, most: u64, why: u8) -> u8 {
    let Some(word) = word else {
        return 2;
    };
    match plain_number(word) {
        None => 3,
        Some(number) if number < least || number > most => why,
        Some(_) => 0,
    }
}

// The least and the most of each number behind this letter.
fn plain_ranges(letter: &str) -> Option<&'static [(u64, u64)]> {
    static RANGES: [(u64, u64); 3] = [(0, 1 << 40), (1, 2048), (1, u64::MAX)];
    match letter {
        "w" | "W" => Some(&RANGES),
        "r" => Some(&RANGES[..2]),
        "f" | "b" | "c" | "m" => Some(&RANGES[..0]),
        _ => None,
    }
}

// Why a line is refused, or 0 where it is read.
fn plain_reason(text: &str) -> u8 {
    if text.len() > 80 {
        return 1;
    }
    let bare = text.trim_matches(' ');
    if text.starts_with('#') || bare.is_empty() || bare == "-" {
        return 0;
    }
    let mut words = text.split(' ').filter(|word| !word.is_empty());
    let worker = words.next();
    let why = plain_range(worker, 1, 16, 5);
    if why != 0 {
        return why;
    }
    let letter = words.next().unwrap_or("");
    let Some(ranges) = plain_ranges(letter) else {
        return 2;
    };
    for (least, most) in ranges {
        let why = plain_range(words.next(), *least, *most, 4);
        if why != 0 {
            return why;
        }
    }
    if words.next().is_some() {
        return 2;
    }
    match (worker.and_then(plain_number), letter) {
        (Some(1), "W") => 2,
        (Some(1), _) => 0,
        _ => 5,
    }
}

// Why the reader of traces refuses the one line of this text, or 0.
fn reason(alloc: Global, text: &str) -> Result<u8, Fail> {
    let bytes = Vec::from_slice(alloc, text.as_bytes())?;
    match read_trace(alloc, &mut MemSource::new(alloc, bytes)) {
        Ok(_) => Ok(0),
        Err(TraceError::Script(e)) => Ok(e.why.number()),
        Err(_) => Ok(u8::MAX),
    }
}

// The next number of a generator.
fn next(state: &mut u32) -> u32 {
    *state = state.wrapping_mul(1_664_525).wrapping_add(1_013_904_223);
    *state >> 8
}

// A line of up to eight parts.
fn line(alloc: Global, state: &mut u32) -> Result<String, AllocError> {
    let mut text = String::new(alloc);
    for _part in 0..next(state) % 9 {
        text.push_str(PARTS[(next(state) % 32) as usize])?;
    }
    Ok(text)
}

#[test]
fn random_lines(rt: HostRuntime) -> Result<(), Fail> {
    let alloc = rt.alloc();
    let mut state = 1;
    let mut read: u32 = 0;
    for _round in 0..ROUNDS {
        let text = line(alloc, &mut state)?;
        let why = plain_reason(text.as_str());
        assert_eq!(rt; reason(alloc, text.as_str())?, why, "'{text}'");
        if why == 0 {
            read = read.saturating_add(1);
        }
    }
    assert!(rt; read > ROUNDS / 20);
    Ok(())
}
