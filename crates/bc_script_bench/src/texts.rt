//! What is read, printed and generated.
ghost use Rattle.std.specs.Prelude.{◌≡◌, ◌+◌, ◌<◌, ◌≤◌, ◌^◌, All, IfOk};
ghost use Rattle.bc_script.specs.Answer.{IsPrintable};
ghost use Rattle.bc_script.specs.Generator.{generated};

use bc_model::values::Values;
use bc_script::answer::Answer;
use bc_script::generator::generate;
use bc_script::print::print_answer;
use bc_script::script::Script;
use std::alloc::{AllocError, Global};

/// A trace of so many lines, each of which writes eight sectors behind those of the one before.
pub fn text_of(alloc: Global, lines: u32) -> Result<Vec<u8>, AllocError> {
    let mut text = Vec::new(alloc);
    for line in 0..lines {
        let first = 8 * line as u64;
        let stamp = line as u64 + 1;
        let words = format!(in alloc; "1 w {first} 8 {stamp}\n")?;
        text.extend_from_slice(words.as_bytes())?;
    }
    Ok(text)
}

// What the reading of the eight sectors of a line is answered.
fn answer_of(alloc: Global, line: u32) -> Result<Answer, AllocError>
    ensures { IfOk result IsPrintable }
{
    let first = 8 * line as u64;
    let mut values = Values::new(alloc);
    values.push_pattern(line as u64 + 1, first, 8)?;
    Ok(Answer::Runs { first, values })
}

/// The answers to a reading of each line's sectors.
pub fn answers_of(alloc: Global, lines: u32) -> Result<Vec<Answer>, AllocError>
    ensures { IfOk result (λ answers. All IsPrintable answers.items) }
{
    let mut answers = Vec::new(alloc);
    for line in 0..lines {
        answers.push(answer_of(alloc, line)?)?;
    }
    Ok(answers)
}

/// The lines of these answers.
pub fn print_all(alloc: Global, answers: &[Answer]) -> Result<Vec<u8>, AllocError>
    requires { All IsPrintable answers.now }
{
    let mut text = Vec::new(alloc);
    for answer in answers {
        print_answer(answer, &mut text)?;
        text.push(b'\n')?;
    }
    Ok(text)
}

/// So many lines for eight workers over a device of 4,096 sectors.
pub fn generated(alloc: Global, lines: u32) -> Result<Script, AllocError>
    requires { lines < 2 ^ 31 }
    ensures { IfOk result (λ script. script ≡ generated 5 8 4096 lines) }
{
    generate(alloc, 5, lines, 8, 4096)
}
