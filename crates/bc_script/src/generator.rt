//! Makes a trace of a number: a large input that is valid whatever the number is.
ghost use Rattle.std.specs.Prelude.{◌≡◌, ◌+◌, ◌*◌, ◌/◌, ◌<◌, ◌≤◌, ◌^◌, IfOk};
ghost use Rattle.bc_script.specs.Generator.{drawn_line, generated, next_drawn};

use crate::line::{Action, Line};
use crate::script::Script;
use std::alloc::{AllocError, Global};

// The number behind another.
#[tactic(auto, unfolding(crate::specs::Generator::next_drawn))]
fn next_drawn(number: u64) -> u64
    requires { number < 2 ^ 32 }
    ensures next { result ≡ next_drawn number }
    ensures small { result < 2 ^ 31 }
{
    (1_103_515_245 * number + 12_345) % (1 << 31)
}

// The sectors before the region of a worker, whose number counts from 0.
fn base_of(before: u8, workers: u8, room: u64, size: u64) -> u64
    requires worker { before < workers }
    requires room { room ≡ size / workers }
    ensures base { result ≡ before * room }
    ensures fits { result + room ≤ size }
{
    before as u64 * room
}

// Line `number`, counted from 1, for the number that was drawn for it.
#[tactic(auto, unfolding(crate::specs::Generator::drawn_line))]
fn drawn_line(workers: u8, size: u64, number: u32, drawn: u64) -> Line
    requires workers { 1 ≤ workers }
    requires room { 64 ≤ size / workers }
    requires number { 1 ≤ number }
    requires drawn { drawn < 2 ^ 31 }
    ensures { result ≡ drawn_line workers size number drawn }
{
    let before = ((number - 1) % workers as u32) as u8;
    let room = size / workers as u64;
    let first = base_of(before, workers, room, size) + drawn % (room - 63);
    let count = (1 + drawn / 65_536 / 8 % 64) as u32;
    let kind = drawn / 65_536 % 8;
    let action = if kind < 4 {
        Action::Write {
            first,
            count,
            stamp: number as u64,
        }
    } else if kind < 7 {
        Action::Read { first, count }
    } else {
        Action::Flush
    };
    Line::Request {
        worker: before + 1,
        phase: 0,
        action,
    }
}

/// So many lines for so many workers over a device of so many data sectors, drawn from this number
/// on: of the numbers `x` of a linear congruence, `(1103515245 x + 12345) mod 2^31`, one makes each
/// line. Its bits from 16 on say whether the line writes, with its own number as stamp, reads or
/// flushes, and how many sectors, 1 to 64. Workers take turns, and each has a region of its own, of
/// `size / workers` sectors, in which its lines begin and end.
pub fn generate(
    alloc: Global,
    start: u32,
    count: u32,
    workers: u8,
    size: u64,
) -> Result<Script, AllocError>
    requires workers { 1 ≤ workers }
    requires room { 64 ≤ size / workers }
    requires count { count < 2 ^ 31 }
    ensures { IfOk result (λ script. script ≡ generated start workers size count) }
{
    let mut lines = Vec::new(alloc);
    let mut number = start as u64;
    for made in 0..count {
        number = next_drawn(number);
        lines.push(drawn_line(workers, size, made + 1, number))?;
    }
    Ok(Script::from_lines(lines))
}
