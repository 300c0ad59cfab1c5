//! The worked rows: what is printed, and the status.
ghost use Rattle.std.specs.Prelude.{◌≡◌, ◌*◌, ◌<◌, length};

use crate::calls::{image, seal, test_calls, test_serve};
use bc_bytes::put_u64;
use bc_disk::mem_disk::MemDisk;
use std::alloc::Global;
use std::process::Abort;
use std::sync::Wait;
use std::test::Fail;

// Serves the trace over this image, by this word: what is printed, and the status.
fn test_image<R: Abort + Wait>(
    rt: &R,
    alloc: Global,
    bytes: Vec<u8>,
    words: (&str, &str),
    text: &str,
    status: u8,
) -> Result<(), Fail>
    requires { length bytes.items ≡ 512 * 80 }
{
    let backing = MemDisk::new(alloc, bytes, 80)?;
    test_serve(rt, alloc, words, backing, text, status)?;
    Ok(())
}

// The same over a device of 64 data sectors of zeros that asks for no cache.
fn test_row<R: Abort + Wait>(
    rt: &R,
    alloc: Global,
    word: &str,
    trace: &str,
    text: &str,
    status: u8,
) -> Result<(), Fail> {
    let bytes = image(alloc, 80, false)?;
    test_image(rt, alloc, bytes, (word, trace), text, status)
}

#[test]
fn printed(rt: HostRuntime) -> Result<(), Fail> {
    let alloc = rt.alloc();
    let trace = "1 w 0 8 7\n1 r 0 10\n1 f\n";
    let text = "done\n7x8 zerox2\ndone\n";
    test_row(&rt, alloc, "serve", trace, text, 0)?;
    let bytes = image(alloc, 80, true)?;
    let text = "superblock cache 9\n";
    test_image(&rt, alloc, bytes, ("serve", "1 r 0 1\n"), text, 4)?;
    let trace = "1 w 0 8 7\n1 r 0 8";
    test_row(&rt, alloc, "serve", trace, "done\n7x8\n", 0)?;
    test_row(&rt, alloc, "serve", "", "", 0)?;
    let trace = "1 r 63 1\n1 r 64 1\n1 r 63 2\n";
    let text = "zerox1\nout-of-range\nout-of-range\n";
    test_row(&rt, alloc, "serve", trace, text, 0)?;
    let trace = "1 w 1 2 7\n1 r 0 4\n";
    let text = "done\nzerox1 7x2 zerox1\n";
    test_row(&rt, alloc, "serve", trace, text, 0)?;
    let trace = "1 w 0 4 7\n1 w 2 1 8\n1 r 0 5\n";
    let text = "done\ndone\n7x2 8x1 7x1 zerox1\n";
    test_row(&rt, alloc, "serve", trace, text, 0)?;
    test_row(&rt, alloc, "fly", "1 r 0 1\n", "usage\n", 2)?;
    test_row(&rt, alloc, "serve", "1 f\n1 x\n", "trace 2 2\n", 3)?;
    // Lines that ask for nothing print nothing, and without a cache a round has nothing to do.
    let trace = "# 1 x\n\n   \n1 w 0 8 7\n - \n1 b\n1 c\n1 m\n01 r 0 008";
    test_row(
        &rt,
        alloc,
        "serve",
        trace,
        "done\ndone\ndone\ndone\n7x8\n",
        0,
    )
}

#[test]
fn refused_lines(rt: HostRuntime) -> Result<(), Fail> {
    let alloc = rt.alloc();
    for (trace, text) in [
        ("1 w 0 8 7\n\n1 x 0 8\n", "trace 3 2\n"),
        ("17 r 0 1", "trace 1 5\n"),
        ("1 w 0 8 0", "trace 1 4\n"),
        ("1 w 0 0", "trace 1 4\n"),
        ("1 r z 1", "trace 1 3\n"),
        ("1 r 0 1 9", "trace 1 2\n"),
        ("1 f\n2 w 0 8 7\n", "trace 2 5\n"),
        ("1 f\n1 W 0 8\n", "trace 2 2\n"),
        ("1 f\n1 W 0 8 0\n", "trace 2 4\n"),
        ("1 f\n2 W 0 8 7\n", "trace 2 5\n"),
    ] {
        test_row(&rt, alloc, "serve", trace, text, 3)?;
    }
    Ok(())
}

// Serves over a superblock of version 4, at whose place of the data offset this number stands.
fn test_offset<R: Abort + Wait>(
    rt: &R,
    alloc: Global,
    offset: u64,
    text: &str,
    status: u8,
) -> Result<(), Fail> {
    let mut bytes = image(alloc, 80, false)?;
    put_u64(&mut bytes, 4112, 4);
    put_u64(&mut bytes, 4280, offset);
    seal(&mut bytes);
    let trace = "1 w 0 2 7\n1 r 0 3\n1 r 55 2\n";
    test_image(rt, alloc, bytes, ("serve", trace), text, status)
}

#[test]
fn data_begins_where_the_superblock_says(rt: HostRuntime) -> Result<(), Fail> {
    let alloc = rt.alloc();
    let refused = "superblock backing 14\n";
    test_offset(&rt, alloc, 0, refused, 4)?;
    test_offset(&rt, alloc, 15, refused, 4)?;
    test_offset(&rt, alloc, 24, "done\n7x2 zerox1\nout-of-range\n", 0)?;
    let outside = "out-of-range\nout-of-range\nout-of-range\n";
    test_offset(&rt, alloc, 79, outside, 0)?;
    test_offset(&rt, alloc, 80, refused, 4)
}

// Serves over a superblock with one bit changed of the byte at this place, and the fault of it.
fn test_flipped<R: Abort + Wait>(
    rt: &R,
    alloc: Global,
    place: usize,
    text: &str,
) -> Result<(), Fail>
    requires { place < 512 }
{
    let mut bytes = image(alloc, 80, false)?;
    bytes[4096 + place] ^= 2;
    test_image(rt, alloc, bytes, ("serve", "1 f\n"), text, 4)
}

#[test]
fn a_flipped_bit_is_refused(rt: HostRuntime) -> Result<(), Fail> {
    let alloc = rt.alloc();
    test_flipped(&rt, alloc, 0, "superblock backing 2\n")?;
    test_flipped(&rt, alloc, 8, "superblock backing 4\n")?;
    test_flipped(&rt, alloc, 16, "superblock backing 2\n")?;
    test_flipped(&rt, alloc, 24, "superblock backing 1\n")?;
    test_flipped(&rt, alloc, 39, "superblock backing 1\n")?;
    test_flipped(&rt, alloc, 104, "superblock backing 2\n")?;
    test_flipped(&rt, alloc, 207, "superblock backing 13\n")
}

#[test]
fn nine_pieces(rt: HostRuntime) -> Result<(), Fail> {
    let alloc = rt.alloc();
    let backing = MemDisk::new(alloc, image(alloc, 2400, false)?, 2400)?;
    let trace = "1 w 255 2048 5\n1 r 254 2048\n1 r 2302 2\n";
    let text = "done\nzerox1 5x2047\n5x1 zerox1\n";
    let ran = test_serve(&rt, alloc, ("serve", trace), backing, text, 0)?;
    // A barrier, the superblock, nine pieces twice, one, and the last barrier.
    test_calls(&rt, &ran, 0, 22);
    Ok(())
}

#[test]
fn a_failed_barrier_halts(rt: HostRuntime) -> Result<(), Fail> {
    let alloc = rt.alloc();
    let mut backing = MemDisk::new(alloc, image(alloc, 80, false)?, 80)?;
    backing.fail(4)?;
    let trace = "1 w 0 1 1\n1 f\n1 r 0 1\n";
    let text = "done\nfault backing\nhalted backing\n";
    test_serve(&rt, alloc, ("serve", trace), backing, text, 6)?;
    Ok(())
}
