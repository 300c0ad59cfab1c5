//! The words of the command line.
ghost use Rattle.std.specs.Prelude.{IfErr};
ghost use Rattle.bc_prog.specs.Refusal.{IsOfWords};

use crate::refusal::Refusal;
use std::env;
use std::io::ErrorKind;
use std::rt::Env;

/// The words behind the program's name. The refusal is `Usage` where a word isn't UTF-8, and
/// `Memory` where there is none for the words.
pub fn words_given<R: Env + AllocGlobal>(rt: &R) -> Result<Vec<String>, Refusal>
    ensures { IfErr result IsOfWords }
{
    match env::args(rt) {
        Ok(all) => all.skip(1).collect(rt.alloc()).map_err(|_| Refusal::Memory),
        Err(error) if error.kind() == ErrorKind::OutOfMemory => Err(Refusal::Memory),
        Err(_) => Err(Refusal::Usage),
    }
}
