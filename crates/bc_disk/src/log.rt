//! Sectors that were written since a barrier.
ghost use Rattle.std.specs.Prelude.{◌≡◌, ◌+◌, ◌/◌, ◌^◌, ◌<◌, ◌≤◌, ◌++◌, [], ℕ, length, vec_capacity, vec_len, nat_le, if◌then◌else◌};
ghost use Rattle.bc_model.specs.Sector.{values_of};
ghost use Rattle.bc_disk.specs.Bytes.{image_of};
ghost use Rattle.bc_disk.specs.Log.{logged, values_at, IsWithin};

use crate::bytes::put;

/// A sector that was written, whole.
#[derive(Clone, Copy, Debug, PartialEq, Eq, Drop)]
pub struct Logged {
    /// Its number.
    pub sector: u64,
    /// Its bytes.
    pub value: [u8; 512],
}

// Adds these sectors to the log, which has memory for them.
fn append(log: &mut Vec<Logged>, at: u64, bytes: &[u8])
    requires memory { vec_len log.old + length bytes.now / 512 ≤ vec_capacity log.old }
    requires end { at + length bytes.now / 512 < 2 ^ 64 }
    ensures log { log.new.items ≡ log.old.items ++ logged at (values_of bytes.now) }
    ensures capacity { vec_capacity log.old ≤ vec_capacity log.new }
{
    let (values, _) = bytes.as_chunks::<512>();
    let mut sector = at;
    for value in values {
        log.push(Logged {
            sector,
            value: *value,
        })
        .unwrap();
        sector += 1;
    }
}

// Adds these sectors to the log if it has room for so many, and answers whether it had.
pub(crate) fn note(log: &mut Vec<Logged>, room: usize, at: u64, bytes: &[u8]) -> bool
    requires fits { length log.old.items ≤ room }
    requires memory { room ≤ vec_capacity log.old }
    requires end { at + length bytes.now / 512 < 2 ^ 64 }
    ensures room { result ≡ nat_le (length log.old.items + length (values_of bytes.now)) room }
    ensures log { log.new.items
        ≡ (if result then log.old.items ++ logged at (values_of bytes.now) else log.old.items) }
    ensures capacity { vec_capacity log.old ≤ vec_capacity log.new }
{
    if bytes.len() / 512 > room - log.len() {
        return false;
    }
    append(log, at, bytes);
    true
}

// Makes what reads give stable, where the log says that it may not be.
pub(crate) fn settle(stable: &mut [u8], seen: &[u8], log: &[Logged])
    requires same_length { length stable.old ≡ length seen.now }
    requires within { IsWithin (length seen.now) log.now }
    requires others { (s : ℕ) → values_at s log.now ≡ [] →
        image_of stable.old s ≡ image_of seen.now s }
    ensures { stable.new ≡ seen.now }
{
    for written in log {
        let start = 512 * written.sector as usize;
        put(stable, written.sector, &seen[start..start + 512]);
    }
}
