use crate::{Command, Options, WordsError, read_words};
use bc_mode::Mode;
use std::alloc::{AllocError, Global};
use std::test::Fail;

const SET: &str = "--set=000123456789abcdef000000000000ff";

const CACHE: &str = "--cuuid=00000000000000000000000000000000";

const BACKING: &str = "--buuid=101112131415161718191a1b1c1d1e1f";

// What a text of words between spaces is read as.
fn read(alloc: Global, text: &str) -> Result<Result<Command, WordsError>, AllocError> {
    let mut words = Vec::new(alloc);
    for word in text.split(' ') {
        words.push(String::from_str(alloc, word)?)?;
    }
    Ok(read_words(alloc, &words))
}

// The same of a line that makes a pair, with more words behind it.
fn format(alloc: Global, more: &str) -> Result<Result<Command, WordsError>, AllocError> {
    let text = format!(in alloc; "format {SET} {CACHE} {BACKING}{more}")?;
    read(alloc, text.as_str())
}

fn serve(mode: Option<Mode>, cutoff: u64, slots: u32) -> Command {
    Command::Serve(Options {
        mode,
        cutoff,
        slots,
    })
}

#[test]
fn commands(rt: HostRuntime) -> Result<(), Fail> {
    let alloc = rt.alloc();
    for (text, command) in [
        ("adopt", Command::Adopt),
        ("show", Command::Show),
        ("serve", serve(None, 8192, 1024)),
        (
            "serve --mode writearound",
            serve(Some(Mode::Writearound), 8192, 1024),
        ),
        (
            "serve --slots=1 --mode=none",
            serve(Some(Mode::None), 8192, 1),
        ),
        (
            "serve --mode=writeback",
            serve(Some(Mode::Writeback), 8192, 1024),
        ),
        (
            "serve --mode writethrough",
            serve(Some(Mode::Writethrough), 8192, 1024),
        ),
        ("serve --cutoff 1099511627776", serve(None, 1 << 40, 1024)),
        ("serve --cutoff=1099511627776", serve(None, 1 << 40, 1024)),
        ("serve --cutoff=0 --slots 1024", serve(None, 0, 1024)),
        ("serve --cutoff 0 --slots=1024", serve(None, 0, 1024)),
        ("serve --slots 1", serve(None, 8192, 1)),
        ("check", Command::Check(false)),
        ("check --list", Command::Check(true)),
    ] {
        assert_eq!(rt; read(alloc, text)?, Ok(command), "{text}");
    }
    for (more, block, bucket, mode, offset) in [
        ("", 1, 1024, Mode::Writethrough, 16),
        (" --block 8", 8, 1024, Mode::Writethrough, 16),
        (" --block=8 --bucket 64", 8, 64, Mode::Writethrough, 16),
        (
            " --block=1 --bucket=32768",
            1,
            32_768,
            Mode::Writethrough,
            16,
        ),
        (" --block 1 --mode writeback", 1, 1024, Mode::Writeback, 16),
        (" --mode=none --bucket=64 --block=2", 2, 64, Mode::None, 16),
        (
            " --bucket 32768 --offset=17",
            1,
            32_768,
            Mode::Writethrough,
            17,
        ),
        (
            " --offset 16 --mode=writearound",
            1,
            1024,
            Mode::Writearound,
            16,
        ),
        (
            " --mode writethrough --offset 1099511627776",
            1,
            1024,
            Mode::Writethrough,
            1 << 40,
        ),
        (
            " --offset=1099511627776 --mode=writeback",
            1,
            1024,
            Mode::Writeback,
            1 << 40,
        ),
    ] {
        let command = Command::Format {
            set: [
                0x00, 0x01, 0x23, 0x45, 0x67, 0x89, 0xab, 0xcd, 0xef, 0, 0, 0, 0, 0, 0, 0xff,
            ],
            cuuid: [0; 16],
            buuid: [
                16, 17, 18, 19, 20, 21, 22, 23, 24, 25, 26, 27, 28, 29, 30, 31,
            ],
            block,
            bucket,
            mode,
            offset,
        };
        assert_eq!(rt; format(alloc, more)?, Ok(command), "{more}");
    }
    Ok(())
}

#[test]
fn refused_words(rt: HostRuntime) -> Result<(), Fail> {
    let alloc = rt.alloc();
    for text in [
        "",
        "--help",
        "help",
        "Serve",
        "serve serve",
        "serve ",
        "adopt --mode none",
        "show -",
        "format",
        "load 1 10 1",
        "check list",
        "check --list=true",
        "check --list --list",
        "nbd",
        "serve --help",
        "serve --mode",
        "serve --mode fast",
        "serve --mode=",
        "serve --mode none --mode none",
        "serve --mode=none --mode=writeback",
        "serve --mode fast --mode none",
        "serve --cutoff",
        "serve --cutoff 1 --cutoff=1",
        "serve --cutoff 1099511627777",
        "serve --slots",
        "serve --slots=",
        "serve --slots 1 --slots 1",
        "serve --slots=0",
        "serve --slots=1025",
        "serve --cutoff=1099511627777",
        "serve --cutoff 007",
        "serve --cutoff=-1",
        "serve --cutoff=+1",
        "serve --cutoff=",
        "serve --slots 0",
        "serve --slots 1025",
        "serve --slots=18446744073709551617",
        "serve --beside",
        "serve --crew 1",
        "serve --mo none",
        "serve -m none",
    ] {
        assert_eq!(rt; read(alloc, text)?, Err(WordsError::Usage), "{text}");
    }
    for more in [
        " --block 0",
        " --block 3",
        " --block 16",
        " --block 01",
        " --block",
        " --block=",
        " --block 1 --block 1",
        " --block=0",
        " --block=16",
        " --bucket",
        " --bucket=",
        " --bucket 64 --bucket=64",
        " --bucket 63",
        " --bucket=65",
        " --bucket 32769",
        " --bucket 32",
        " --bucket 100",
        " --bucket 65536",
        " --bucket 064",
        " --set=000123456789abcdef000000000000ff",
        " --cuuid 00000000000000000000000000000000",
        " --buuid=101112131415161718191a1b1c1d1e1f",
        " --mode",
        " --mode=",
        " --mode 1",
        " --mode=fast",
        " --mode Writeback",
        " --mode none --mode=none",
        " --mode=writeback --offset 16 --mode none",
        " --offset",
        " --offset=",
        " --offset 15",
        " --offset=0",
        " --offset 1099511627777",
        " --offset=18446744073709551632",
        " --offset 016",
        " --offset=+16",
        " --offset 16 --offset 16",
        " --offset=16 --mode none --offset=17",
        " --cutoff 0",
        " --slots=1",
        " 1024",
    ] {
        assert_eq!(rt; format(alloc, more)?, Err(WordsError::Usage), "{more}");
    }
    for uuid in [
        "",
        "00000000000000000000000000000000",
        "000123456789ABCDEF000000000000FF",
        "000123456789abcdef000000000000f",
        "000123456789abcdef000000000000fff",
        "0000000000000000000000000000000g",
    ] {
        let text = format!(in alloc; "format --set={uuid} {CACHE} {BACKING}")?;
        assert_eq!(rt;
            read(alloc, text.as_str())?,
            Err(WordsError::Usage),
            "{uuid}"
        );
    }
    Ok(())
}

#[test]
fn words_of_a_pair(rt: HostRuntime) -> Result<(), Fail> {
    let alloc = rt.alloc();
    let spaced =
        "format --buuid 101112131415161718191a1b1c1d1e1f --set 000123456789abcdef000000000000ff --cuuid 00000000000000000000000000000000";
    assert_eq!(rt; read(alloc, spaced)?, format(alloc, "")?);
    for words in [
        [SET, CACHE, ""],
        [SET, BACKING, ""],
        [CACHE, BACKING, ""],
        [SET, CACHE, "--buuid"],
        [SET, CACHE, "--buuid="],
        [SET, BACKING, "--cuuid"],
        [SET, BACKING, "--cuuid="],
        [CACHE, BACKING, "--set"],
        [CACHE, BACKING, "--set="],
    ] {
        let text = format!(in alloc; "format {} {} {}", words[0], words[1], words[2])?;
        assert_eq!(rt;
            read(alloc, text.as_str())?,
            Err(WordsError::Usage),
            "{text}"
        );
    }
    Ok(())
}
