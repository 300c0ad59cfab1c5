//! Devices that fail and stop at each call, and what a crash leaves of them then.
ghost use Rattle.std.specs.Prelude.{◌≡◌, ◌*◌, length};

use crate::calls::{image, serve, source};
use bc_book::pass::Pass;
use bc_disk::crash::Pick;
use bc_disk::mem_disk::MemDisk;
use bc_disk::mem_sink::MemSink;
use bc_model::history::Entry;
use bc_model::sector::sector_at;
use bc_model::values::Values;
use bc_plain::history::{is_allowed, is_legal};
use bc_top::exit::Exit;
use std::alloc::Global;
use std::process::Abort;
use std::sync::Wait;
use std::test::Fail;

/// Writes, flushes and reads that cross the end of a piece, and a forced write that does. They make
/// 17 calls of the device.
const TRACE: &str =
    "1 w 250 12 1\n1 f\n1 w 0 4 2\n1 r 248 16\n1 W 254 4 4\n1 w 252 6 3\n1 f\n1 r 0 8\n";

/// The sectors before the data.
const OFFSET: usize = 16;

/// The data sectors.
const SIZE: usize = 304;

// Tests that each of these values, which were read from this sector on, is allowed behind the run, and
// tells the sector behind them.
fn test_values<R: Abort>(rt: &R, opening: &[u8], pass: &Pass, first: u64, values: &Values) -> u64
    requires { length opening.now ≡ 512 * 304 }
{
    let mut read = first;
    for place in 0..values.len() {
        assert!(rt; read < 304);
        let sector = read;
        assert!(rt; is_allowed(opening, pass.entries(), sector, &values.get(place)));
        read = sector + 1;
    }
    read
}

// Tests that reads of all data, which were served over what a crash left, are allowed behind the run
// before it.
fn test_reads<R: Abort>(rt: &R, opening: &[u8], pass: &Pass, again: &Pass)
    requires { length opening.now ≡ 512 * 304 }
{
    let mut read = 0;
    for entry in again.entries() {
        if let Entry::Read { first, values, .. } = entry {
            assert_eq!(rt; *first, read);
            read = test_values(rt, opening, pass, *first, values);
        }
    }
    assert_eq!(rt; read, 304);
}

// The same of what such a call left.
fn test_again<R: Abort>(rt: &R, opening: &[u8], pass: &Pass, again: &Exit<MemDisk, MemDisk>)
    requires { length opening.now ≡ 512 * 304 }
{
    assert_eq!(rt; again.status.number(), 0);
    assert!(rt; again.pass.is_some());
    if let Some(next) = &again.pass {
        test_reads(rt, opening, pass, next);
    }
}

// Serves reads of all data over what a crash left, and tests that each sector that is read is allowed
// behind the run before it.
fn serve_again<R: Abort + Wait>(
    rt: &R,
    alloc: Global,
    opening: &[u8],
    pass: &Pass,
    left: MemDisk,
) -> Result<(), Fail>
    requires { length opening.now ≡ 512 * 304 }
{
    let source = source(alloc, "1 r 0 304\n")?;
    let mut out = MemSink::new(alloc, 10000)?;
    let again = serve(rt, alloc, "serve", source, left, &mut out)?;
    test_again(rt, opening, pass, &again);
    Ok(())
}

// Tests each data sector of an image that a crash left.
fn test_left<R: Abort>(rt: &R, area: &[u8], pass: &Pass, left: &[u8])
    requires { length area.now ≡ 512 * 304 }
{
    assert!(rt; left.len() == 512 * (OFFSET + SIZE));
    for sector in 0..SIZE {
        let value = sector_at(left, OFFSET + sector);
        assert!(rt; is_allowed(area, pass.entries(), sector as u64, &value));
    }
}

// Tests each data sector that this crash of the device leaves.
fn test_crash<R: Abort + Wait>(
    rt: &R,
    alloc: Global,
    area: &[u8],
    pass: &Pass,
    left: MemDisk,
) -> Result<(), Fail>
    requires { length area.now ≡ 512 * 304 }
{
    test_left(rt, area, pass, left.bytes());
    serve_again(rt, alloc, area, pass, left)
}

// The same of each crash.
fn test_crashes<R: Abort + Wait>(
    rt: &R,
    alloc: Global,
    opening: &[u8],
    pass: &Pass,
    device: &MemDisk,
) -> Result<(), Fail>
    requires { length opening.now ≡ 512 * 320 }
{
    let area = &opening[512 * OFFSET..];
    assert!(rt; is_legal(area, pass.entries()));
    test_crash(rt, alloc, area, pass, device.crash(Pick::Stable)?)?;
    test_crash(rt, alloc, area, pass, device.crash(Pick::Newest)?)?;
    test_crash(rt, alloc, area, pass, device.crash(Pick::Mixed(1))?)?;
    test_crash(rt, alloc, area, pass, device.crash(Pick::Mixed(2))?)?;
    test_crash(rt, alloc, area, pass, device.crash(Pick::Mixed(3))?)
}

// Tests the status, what a run over the device left, where it began, and that nothing changed
// otherwise.
fn test_ran<R: Abort + Wait>(
    rt: &R,
    alloc: Global,
    opening: &[u8],
    ran: &Exit<MemDisk, MemDisk>,
    status: u8,
) -> Result<(), Fail>
    requires { length opening.now ≡ 512 * 320 }
{
    assert_eq!(rt; ran.status.number(), status);
    if let Some(pass) = &ran.pass {
        return test_crashes(rt, alloc, opening, pass, &ran.backing);
    }
    assert!(rt; ran.backing.bytes() == opening);
    Ok(())
}

// Serves the trace over the device, and tests the status and what is left.
fn test_served<R: Abort + Wait>(
    rt: &R,
    alloc: Global,
    opening: &[u8],
    device: MemDisk,
    status: u8,
) -> Result<(), Fail>
    requires { length opening.now ≡ 512 * 320 }
{
    let source = source(alloc, TRACE)?;
    let mut out = MemSink::new(alloc, 1000)?;
    let ran = serve(rt, alloc, "serve", source, device, &mut out)?;
    test_ran(rt, alloc, opening, &ran, status)
}

// Serves over a device of which this call fails, or none where its number is 0.
fn test_fault<R: Abort + Wait>(rt: &R, alloc: Global, opening: &[u8], call: u64) -> Result<(), Fail>
    requires { length opening.now ≡ 512 * 320 }
{
    let mut device = MemDisk::new(alloc, Vec::from_slice(alloc, opening)?, 64)?;
    device.fail(call)?;
    test_served(rt, alloc, opening, device, if call == 0 { 0 } else { 6 })
}

// Serves over a device of which each call behind so many fails.
fn test_stop<R: Abort + Wait>(rt: &R, alloc: Global, opening: &[u8], calls: u64) -> Result<(), Fail>
    requires { length opening.now ≡ 512 * 320 }
{
    let mut device = MemDisk::new(alloc, Vec::from_slice(alloc, opening)?, 64)?;
    device.stop_after(calls);
    test_served(rt, alloc, opening, device, if 17 <= calls { 0 } else { 6 })
}

#[test]
fn each_call_fails_or_is_the_last(rt: HostRuntime) -> Result<(), Fail> {
    let alloc = rt.alloc();
    let opening = image(alloc, OFFSET + SIZE, false)?;
    for call in 0..18 {
        test_fault(&rt, alloc, &opening, call)?;
        test_stop(&rt, alloc, &opening, call)?;
    }
    Ok(())
}
