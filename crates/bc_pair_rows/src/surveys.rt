//! Pairs by their bytes: a sound one, and one for each refusal.

ghost use Rattle.std.specs.Prelude.{◌≡◌, ◌+◌, ◌*◌, ◌<◌, ◌≤◌, length};

use bc_bytes::{crc64, put_u32, put_u64};
use bc_disk::disk::Device;
use bc_disk::mem_disk::MemDisk;
use bc_keys::put_words;
use bc_mode::Mode;
use bc_node::NodeError;
use bc_pair::error::PairError;
use bc_pair::format::{NewPair, format};
use bc_prio::PrioError;
use bc_replay::{OpenError, Survey, Use, survey};
use bc_set::SetError;
use bc_super::error::SuperError;
use std::alloc::{AllocError, Global};
use std::process::Abort;
use std::test::Fail;

/// The bytes of the cache device: 128 buckets of 64 sectors. Entry 1 stands in sector 64, the
/// generations in bucket 9, the uuid table in bucket 10, the root in bucket 11, its leaf in bucket 12.
const CACHE: usize = 128 * 64 * 512;

/// The first word of a key of one sector with one pointer.
const ONE: u64 = (1 << 63) + (1 << 60) + (1 << 20);

/// What is done to a sound pair.
#[derive(Clone, Copy, Debug, Drop)]
enum Edit {
    /// Nothing.
    None,
    /// Another byte, at this place.
    Flip(usize),
    /// The numbers of the entry: its own, and that of the oldest entry that it needs.
    Entry(u64, u64),
    /// Where the key of the root ends.
    Root(u64),
    /// A key in the leaf, of the sector before this one, with a pointer of this word.
    Leaf(u64, u64),
    /// Keys of as many sectors as there are buckets without use, one in each.
    Full,
}

// A disk of so many zeros, in sectors.
fn blank(alloc: Global, sectors: usize) -> Result<MemDisk, AllocError>
    requires { sectors ≤ 65536 }
{
    MemDisk::new(alloc, vec![in alloc; 0u8; 512 * sectors]?, 1000)
}

// A new pair, with 1,024 sectors of data.
fn new_pair(alloc: Global) -> Result<(MemDisk, MemDisk), PairError> {
    let mut cache = blank(alloc, CACHE / 512)?;
    let mut backing = blank(alloc, 1040)?;
    let pair = NewPair {
        set_uuid: [1; 16],
        cache_uuid: [2; 16],
        backing_uuid: [3; 16],
        block: 1,
        bucket: 64,
        mode: Mode::Writethrough,
        offset: 16,
    };
    format(alloc, &mut cache, &mut backing, &pair)?;
    Ok((cache, backing))
}

// Gives the entry the checksum of its bytes.
fn seal_entry(bytes: &mut [u8])
    requires { 4194304 ≤ length bytes.old }
    ensures { length bytes.new ≡ length bytes.old }
{
    let at = 64 * 512;
    let sum = crc64(u64::MAX, &bytes[at + 8..at + 240]);
    put_u64(bytes, at, sum);
}

// Puts so many keys into the first set of the leaf, each of one sector: key i of sector `end + i`,
// in the first sector of bucket 13 + i, but for the first key, which has this pointer.
fn put_leaf(bytes: &mut [u8], end: u64, word: u64, count: usize)
    requires large { 4194304 ≤ length bytes.old }
    requires few { count ≤ 120 }
    requires end { end < 10000 }
    ensures { length bytes.new ≡ length bytes.old }
{
    let at = 768 * 512;
    put_u32(bytes, at + 28, 3 * count as u32);
    for i in 0..count {
        let bucket = 13 + i as u64;
        let word = if i == 0 { word } else { (bucket * 64) << 8 };
        put_words(bytes, at + 32 + 24 * i, &[ONE, end + i as u64, word]);
    }
    let sum = crc64(768 << 8, &bytes[at + 8..at + 32 + 24 * count]);
    put_u64(bytes, at, sum);
}

fn edited(bytes: &mut [u8], edit: Edit)
    requires { 4194304 ≤ length bytes.old }
    ensures { length bytes.new ≡ length bytes.old }
{
    match edit {
        Edit::None => {}
        Edit::Flip(at) => {
            if at < bytes.len() {
                bytes[at] ^= 1;
            }
        }
        Edit::Entry(seq, last_seq) => {
            put_u64(bytes, 64 * 512 + 16, seq);
            put_u64(bytes, 64 * 512 + 32, last_seq);
            seal_entry(bytes);
        }
        Edit::Root(end) => {
            put_u64(bytes, 64 * 512 + 112, end);
            seal_entry(bytes);
        }
        Edit::Leaf(end, word) => {
            if end < 10000 {
                put_leaf(bytes, end, word, 1);
            }
        }
        Edit::Full => put_leaf(bytes, 1, (13 * 64) << 8, 115),
    }
}

// What is answered of a pair whose cache device has these bytes, after an edit of them.
fn answer(
    rt: &impl Abort,
    alloc: Global,
    made: &[u8],
    backing: &mut MemDisk,
    edit: Edit,
) -> Result<Result<Survey, OpenError>, AllocError> {
    let mut bytes = Vec::from_slice(alloc, made)?;
    assert_eq!(rt; bytes.len(), CACHE);
    edited(&mut bytes, edit);
    let mut cache = MemDisk::new(alloc, bytes, 1000)?;
    Ok(survey(alloc, &mut cache, backing))
}

#[test]
fn surveys(rt: HostRuntime) -> Result<(), Fail> {
    let alloc = rt.alloc();
    let (made, mut backing) = new_pair(alloc)?;
    let new = answer(&rt, alloc, made.bytes(), &mut backing, Edit::None)??;
    assert_eq!(rt;
        (new.seen.len(), new.index.len(), new.journal.len()),
        (2, 0, 1)
    );
    let edit = Edit::Leaf(8, (100 * 64) << 8);
    let one = answer(&rt, alloc, made.bytes(), &mut backing, edit)??;
    assert_eq!(rt; one.index.len(), 1);
    assert_eq!(rt; one.uses.len(), 128);
    for bucket in 0..128 {
        let kind = match bucket {
            0 => Use::Super,
            1..=8 => Use::Journal,
            9 => Use::Priority,
            10 => Use::Uuid,
            11 | 12 => Use::Node,
            100 => Use::Data,
            _ => Use::None,
        };
        assert_eq!(rt; one.uses.get(bucket), Some(&kind), "bucket {bucket}");
    }
    Ok(())
}

// Sees that each edit is answered by its refusal.
fn refused(rt: &impl Abort, alloc: Global, cases: &[(Edit, OpenError)]) -> Result<(), PairError> {
    let (made, mut backing) = new_pair(alloc)?;
    for (edit, why) in cases {
        match answer(rt, alloc, made.bytes(), &mut backing, *edit)? {
            Ok(_) => assert!(rt; false, "{edit:?}"),
            Err(e) => assert_eq!(rt; e, *why, "{edit:?}"),
        }
    }
    Ok(())
}

#[test]
fn refuses_heads(rt: HostRuntime) -> Result<(), Fail> {
    let last = (1 << 63) - 2;
    refused(
        &rt,
        rt.alloc(),
        &[
            (
                Edit::Flip(8 * 512 + 100),
                OpenError::Super {
                    device: Device::Cache,
                    why: SuperError::Checksum,
                },
            ),
            (Edit::Flip(64 * 512 + 100), OpenError::NoJournal),
            (Edit::Entry(1, 2), OpenError::JournalGap { from: 1, to: 2 }),
            (Edit::Entry(3, 1), OpenError::JournalGap { from: 1, to: 2 }),
            (Edit::Entry(last, last), OpenError::JournalEnd { seq: last }),
            (
                Edit::Flip(576 * 512 + 100),
                OpenError::Prio(PrioError::Checksum),
            ),
            (Edit::Flip(640 * 512), OpenError::Uuid),
        ],
    )?;
    Ok(())
}

#[test]
fn refuses_indexes(rt: HostRuntime) -> Result<(), Fail> {
    refused(
        &rt,
        rt.alloc(),
        &[
            (
                Edit::Flip(768 * 512 + 16),
                OpenError::Node {
                    bucket: 12,
                    why: NodeError::First(SetError::Checksum),
                },
            ),
            (
                Edit::Leaf(8, 320 << 8),
                OpenError::PointerRange { word: 320 << 8 },
            ),
            (
                Edit::Leaf(1025, 832 << 8),
                OpenError::PointerRange { word: 832 << 8 },
            ),
            (
                Edit::Root(1 << 39),
                OpenError::PointerRange { word: 704 << 8 },
            ),
            (Edit::Leaf(8, 768 << 8), OpenError::TwoUses { bucket: 12 }),
            (Edit::Leaf(8, 576 << 8), OpenError::TwoUses { bucket: 9 }),
            (Edit::Full, OpenError::NoSpare { found: 0 }),
        ],
    )?;
    Ok(())
}

#[test]
fn failed_calls(rt: HostRuntime) -> Result<(), Fail> {
    for (device, call) in [
        (Device::Cache, 1),
        (Device::Cache, 13),
        (Device::Backing, 1),
    ] {
        let (mut cache, mut backing) = new_pair(rt.alloc())?;
        match device {
            Device::Cache => cache.fail(cache.calls().saturating_add(call))?,
            Device::Backing => backing.fail(backing.calls().saturating_add(call))?,
        }
        match survey(rt.alloc(), &mut cache, &mut backing) {
            Ok(_) => assert!(rt; false, "call {call}"),
            Err(e) => assert_eq!(rt; e, OpenError::Fault(device), "call {call}"),
        }
    }
    Ok(())
}
