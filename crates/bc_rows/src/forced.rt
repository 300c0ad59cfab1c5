//! Forced writes: what is acknowledged is there after a crash, and nothing else is promised.
use crate::calls::{image, test_calls, test_serve};
use bc_disk::crash::Pick;
use bc_disk::mem_disk::MemDisk;
use std::alloc::Global;
use std::process::Abort;
use std::sync::Wait;
use std::test::Fail;

// The device with 64 data sectors of zeros.
fn device(alloc: Global) -> Result<MemDisk, Fail> {
    Ok(MemDisk::new(alloc, image(alloc, 80, false)?, 80)?)
}

// Tests what reads of these sectors print, over what each kind of crash leaves.
fn test_left<R: Abort + Wait>(
    rt: &R,
    alloc: Global,
    device: &MemDisk,
    trace: &str,
    text: &str,
) -> Result<(), Fail> {
    test_serve(
        rt,
        alloc,
        ("serve", trace),
        device.crash(Pick::Stable)?,
        text,
        0,
    )?;
    test_serve(
        rt,
        alloc,
        ("serve", trace),
        device.crash(Pick::Newest)?,
        text,
        0,
    )?;
    test_serve(
        rt,
        alloc,
        ("serve", trace),
        device.crash(Pick::Mixed(1))?,
        text,
        0,
    )?;
    Ok(())
}

#[test]
fn a_forced_write_survives_whatever_stops_later(rt: HostRuntime) -> Result<(), Fail> {
    let alloc = rt.alloc();
    let mut backing = device(alloc)?;
    // A barrier, the superblock, the write and its barrier; the last barrier fails.
    backing.stop_after(4);
    let text = "done\nfault backing\n";
    let ran = test_serve(&rt, alloc, ("serve", "1 W 0 8 7\n"), backing, text, 6)?;
    test_calls(&rt, &ran, 0, 5);
    test_left(&rt, alloc, &ran.backing, "1 r 0 9\n", "7x8 zerox1\n")
}

#[test]
fn its_barrier_fails(rt: HostRuntime) -> Result<(), Fail> {
    let alloc = rt.alloc();
    let mut backing = device(alloc)?;
    backing.fail(4)?;
    let trace = "1 W 0 1 2\n1 W 1 1 3\n";
    let text = "fault backing\nhalted backing\n";
    let ran = test_serve(&rt, alloc, ("serve", trace), backing, text, 6)?;
    test_calls(&rt, &ran, 0, 4);
    let newest = ran.backing.crash(Pick::Newest)?;
    test_serve(
        &rt,
        alloc,
        ("serve", "1 r 0 2\n"),
        newest,
        "2x1 zerox1\n",
        0,
    )?;
    let stable = ran.backing.crash(Pick::Stable)?;
    test_serve(&rt, alloc, ("serve", "1 r 0 2\n"), stable, "zerox2\n", 0)?;
    Ok(())
}

#[test]
fn beside_a_write_that_is_not_forced(rt: HostRuntime) -> Result<(), Fail> {
    let alloc = rt.alloc();
    let mut backing = device(alloc)?;
    // The write behind it is made, and the last barrier fails.
    backing.fail(7)?;
    let trace = "1 w 0 1 1\n1 W 4 1 2\n1 w 8 1 3\n";
    let text = "done\ndone\ndone\nfault backing\n";
    let ran = test_serve(&rt, alloc, ("serve", trace), backing, text, 6)?;
    test_left(&rt, alloc, &ran.backing, "1 r 4 1\n", "2x1\n")?;
    let stable = ran.backing.crash(Pick::Stable)?;
    test_serve(&rt, alloc, ("serve", "1 r 8 1\n"), stable, "zerox1\n", 0)?;
    Ok(())
}

#[test]
fn each_piece_has_its_barrier(rt: HostRuntime) -> Result<(), Fail> {
    let alloc = rt.alloc();
    let backing = MemDisk::new(alloc, image(alloc, 800, false)?, 800)?;
    let trace = "1 W 255 258 5\n1 r 254 3\n1 W 784 1 1\n";
    let text = "done\nzerox1 5x2\nout-of-range\n";
    let ran = test_serve(&rt, alloc, ("serve", trace), backing, text, 0)?;
    // A barrier, the superblock, three pieces with a barrier each, two reads, and the last barrier.
    test_calls(&rt, &ran, 0, 11);
    Ok(())
}
