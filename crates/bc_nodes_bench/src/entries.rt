//! Journal entries that are sealed.
ghost use Rattle.std.specs.Prelude.{◌≡◌, ◌<◌, ◌^◌, IfSome, Some};
ghost use Rattle.bc_journal.specs.Sealed.{numbers_of};

use crate::leaves::with_time;
use bc_disk::geometry::Geometry;
use bc_journal::{Heads, Journal, Place, Sealed};
use bc_key::{Key, Ptr};
use bc_keys::{are_extents, word_count};
use std::io;
use std::time::{CpuClock, Duration};

/// Buckets of 512 sectors, of which eight are the journal.
const DEVICE: Geometry = Geometry {
    block: 1,
    bucket: 512,
    nbuckets: 128,
    first_bucket: 1,
    journal: 8,
    set_magic: 1,
    node_sectors: 512,
};

/// How many keys an entry has: all that fit in one.
const KEYS: usize = 1_355;

/// What was sealed.
#[derive(Drop)]
pub struct Sealing {
    /// The bytes of all entries.
    pub bytes: u64,
    /// The processor time that it took.
    pub time: Duration,
}

/// The dirty key of eight sectors.
fn key_at(slot: u64) -> Key
    requires { slot < 2 ^ 32 }
{
    let pointer = Ptr {
        dev: 0,
        offset: 2_048 + 8 * slot,
        generation: 0,
    };
    Key::new(8 * slot + 8, 8, true, Some(pointer))
}

/// What an entry says beside its keys.
fn heads() -> Heads
    ensures { result.level ≡ 1 }
{
    Heads {
        uuid_bucket: key_at(64),
        root: key_at(1 << 30),
        level: 1,
        prio: 9,
    }
}

/// Adds keys to those that wait. Says whether there was room.
fn add(journal: &mut Journal, keys: &[Key]) -> bool {
    if journal.number() >= 1 << 63 || !are_extents(keys) || !journal.room(word_count(keys)) {
        return false;
    }
    let _ = journal.add(keys);
    true
}

/// Makes an entry of the keys that wait.
fn seal(journal: &mut Journal, heads: &Heads) -> Option<Sealed>
    requires { heads.now.level ≡ 1 }
    ensures { IfSome result (λ s. journal.new.sealed ≡ Some (numbers_of s.entry)) }
{
    if journal.sealed() != None || !journal.room(0) {
        return None;
    }
    journal.seal(heads).ok()
}

/// Adds keys, seals them and takes the entry back, which is then the oldest that is needed. The time
/// of what follows the adding is told. `None` where there is no room.
fn round<R: CpuClock>(
    rt: &R,
    journal: &mut Journal,
    keys: &[Key],
    heads: &Heads,
) -> io::Result<Option<Sealing>>
    requires { heads.now.level ≡ 1 }
{
    if !add(journal, keys) {
        return Ok(None);
    }
    let begun = rt.process_cpu_time()?;
    let Some(sealed) = seal(journal, heads) else {
        return Ok(None);
    };
    let bytes = sealed.bytes().len() as u64;
    journal.written(sealed);
    let ended = rt.process_cpu_time()?;
    let number = journal.durable();
    if journal.needed() <= number && number <= journal.number() {
        journal.reclaim_to(number);
    }
    let time = with_time(Duration::ZERO, begun, ended);
    Ok(Some(Sealing { bytes, time }))
}

/// Seals so many entries. `None` where one had no room.
pub fn entries<R: CpuClock + AllocGlobal>(rt: &R, rounds: u32) -> io::Result<Option<Sealing>> {
    let first = Place {
        bucket: 7,
        sector: 512,
    };
    let newest = [0, 0, 0, 0, 0, 0, 0, 1];
    let heads = heads();
    let mut journal = Journal::new(rt.alloc(), &DEVICE, first, &newest, 1, 2, &heads)?;
    let mut keys = vec![in rt.alloc(); key_at(0); KEYS]?;
    for (i, key) in keys.iter_mut().enumerate() {
        *key = key_at(i as u64);
    }
    let mut all = Sealing {
        bytes: 0,
        time: Duration::ZERO,
    };
    for _ in 0..rounds {
        match round(rt, &mut journal, &keys, &heads)? {
            Some(more) => {
                all.bytes = all.bytes.wrapping_add(more.bytes);
                all.time = all.time.saturating_add(more.time);
            }
            None => return Ok(None),
        }
    }
    Ok(Some(all))
}
