//! A trace served over a made image.
ghost use Rattle.std.specs.Prelude.{◌≡◌, ℕ, ◌*◌, ◌<◌, ◌≤◌, length, IfOk};
ghost use Rattle.bc_super.specs.Super.{IsUsable};

use bc_bytes::{crc64, put_u64};
use bc_disk::mem_disk::MemDisk;
use bc_disk::mem_sink::MemSink;
use bc_disk::mem_source::MemSource;
use bc_disk::stream::{Sink, Source};
use bc_super::backing::{BackingSuper, write_backing};
use bc_top::exit::Exit;
use bc_top::top::bcache;
use std::alloc::{AllocError, Global};
use std::process::Abort;
use std::sync::Wait;
use std::test::Fail;

/// The superblock of a backing device that has no state. It asks for no cache, or for writeback.
pub const fn superblock(cached: bool) -> BackingSuper
    ensures { (sectors : ℕ) → 17 ≤ sectors → IsUsable sectors result }
{
    BackingSuper {
        version: 1,
        uuid: [0x0b; 16],
        set_uuid: [0; 16],
        label: [0; 32],
        flags: if cached { 1 } else { 3 },
        seq: 0,
        block: 1,
        last_mount: 0,
        data_offset: 16,
    }
}

/// An image of so many sectors that are zero but for the superblock.
pub fn image(alloc: Global, sectors: usize, cached: bool) -> Result<Vec<u8>, Fail>
    requires { (17 ≤ sectors) × (sectors < 4096) }
    ensures { IfOk result (λ bytes. length bytes.items ≡ 512 * sectors) }
{
    let mut disk = MemDisk::new(alloc, vec![in alloc; 0u8; 512 * sectors]?, 1)?;
    write_backing(&mut disk, &superblock(cached))?;
    Ok(Vec::from_slice(alloc, disk.bytes())?)
}

/// Makes the checksum of a backing device's superblock right again.
pub fn seal(bytes: &mut [u8])
    requires { 4608 ≤ length bytes.old }
    ensures { length bytes.new ≡ length bytes.old }
{
    let sum = crc64(u64::MAX, &bytes[4104..4304]);
    put_u64(bytes, 4096, sum);
}

/// Serves the trace over the device by this word, before an empty cache device. What is printed goes
/// to the sink.
pub fn serve<R: Wait, S: Source + Drop, K: Sink>(
    rt: &R,
    alloc: Global,
    word: &str,
    source: S,
    backing: MemDisk,
    out: &mut K,
) -> Result<Exit<MemDisk, MemDisk>, Fail> {
    let mut source = source;
    let words = [String::from_str(alloc, word)?];
    let cache = MemDisk::new(alloc, Vec::new(alloc), 0)?;
    Ok(bcache(rt, alloc, &words, &mut source, cache, backing, out))
}

/// Tests how a run ended: what was printed, and the status.
pub fn test_end<R: Abort>(
    rt: &R,
    ran: &Exit<MemDisk, MemDisk>,
    printed: &[u8],
    text: &[u8],
    status: u8,
) {
    assert_eq!(rt; ran.status.number(), status);
    assert_eq!(rt; printed, text);
}

/// Tests how many calls were made of the two devices.
pub fn test_calls<R: Abort>(rt: &R, ran: &Exit<MemDisk, MemDisk>, cache: u64, backing: u64) {
    assert_eq!(rt; ran.cache.calls(), cache);
    assert_eq!(rt; ran.backing.calls(), backing);
}

/// Serves the trace over the device by this word: what is printed, and the status.
pub fn test_serve<R: Abort + Wait>(
    rt: &R,
    alloc: Global,
    words: (&str, &str),
    backing: MemDisk,
    text: &str,
    status: u8,
) -> Result<Exit<MemDisk, MemDisk>, Fail> {
    let source = source(alloc, words.1)?;
    let mut out = MemSink::new(alloc, 1000)?;
    let ran = serve(rt, alloc, words.0, source, backing, &mut out)?;
    test_end(rt, &ran, out.bytes(), text.as_bytes(), status);
    Ok(ran)
}

/// The trace as a source.
pub fn source(alloc: Global, trace: &str) -> Result<MemSource, AllocError> {
    Ok(MemSource::new(alloc, Vec::from_slice(alloc, trace.as_bytes())?))
}
