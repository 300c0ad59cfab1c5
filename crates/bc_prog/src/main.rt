//! The program `bcache CACHE BACKING COMMAND`. A command runs over a cache device and a backing
//! device, which are files or block devices. It takes its trace from standard input and puts what
//! it has to say to standard output.
#![tactic(auto)]

mod command_line;
mod files;
mod refusal;

use bc_file::file_in::FileIn;
use bc_file::file_out::FileOut;
use command_line::words_given;
use files::run;
use refusal::refuse;
use std::fs::File;
use std::io;
use std::process::ExitCode;

fn main(rt: HostRuntime) -> ExitCode {
    // Where the program was started with a standard stream closed, these take its place. Else a
    // device would, and what is put would be written to it.
    let _in_their_place = [0; 3].map(|_| File::open(&rt, "/dev/null"));
    let mut trace = FileIn::new(rt.reader());
    let mut out = FileOut::new(io::writer(&rt));
    let status = match words_given(&rt) {
        Ok(words) => run(&rt, rt.alloc(), &words, &mut trace, &mut out),
        Err(refusal) => refuse(refusal, &mut out),
    };
    ExitCode::from(status.number())
}
