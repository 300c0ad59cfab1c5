//! What a crash makes of the sectors that were written since a barrier.
ghost use Rattle.std.specs.Prelude.{◌≡◌, ◌*◌, ◌/◌, ◌<◌, ◌≤◌, [], ℕ, length, slice_index, slice_index_or, IfOk};
ghost use Rattle.bc_disk.specs.Bytes.{image_of};
ghost use Rattle.bc_disk.specs.Log.{values_at, choices, IsWithin};
ghost use Rattle.bc_disk.specs.Crash.{choice, picked};

use crate::bytes::put;
use crate::log::Logged;
use std::alloc::{AllocError, Global};

/// What a crash leaves in each sector. Its choices are the stable value first, then the values that
/// were written since, in their order, those of failed writes among them.
#[derive(Clone, Copy, Debug, PartialEq, Eq, Drop)]
pub enum Pick {
    /// The first choice.
    Stable,
    /// The last choice.
    Newest,
    /// `Mixed(n)`: of sector k, choice n + k modulo the number of its choices.
    Mixed(u64),
}

// Which choice a sector takes that was written so often: 0 is its stable value.
fn choice(pick: Pick, sector: u64, written: u64) -> u64
    ensures { result ≡ choice pick sector written }
{
    match pick {
        Pick::Stable => 0,
        Pick::Newest => written,
        Pick::Mixed(n) => {
            let number = u128::from(n) + u128::from(sector);
            (number % (u128::from(written) + 1)) as u64
        }
    }
}

// How often each of the first sectors was written.
fn counts(alloc: Global, sectors: usize, log: &[Logged]) -> Result<Vec<u64>, AllocError>
    requires { IsWithin (512 * sectors) log.now }
    ensures length { IfOk result (λ v. length v.items ≡ sectors) }
    ensures counts { IfOk result (λ v. (s : ℕ) → s < sectors →
        slice_index v.items s ≡ length (values_at s log.now)) }
{
    let mut counts = vec![in alloc; 0u64; sectors]?;
    for written in log {
        counts[written.sector as usize] += 1;
    }
    Ok(counts)
}

// Turns how often each sector was written into the number of its choice.
fn choose(pick: Pick, counts: &mut [u64])
    ensures { (s : ℕ) → s < length counts.old →
        slice_index counts.new s ≡ choice pick s (slice_index counts.old s) }
{
    for (sector, count) in counts.iter_mut().enumerate() {
        *count = choice(pick, sector as u64, *count);
    }
}

// Puts into each sector that of the written values which is wanted, 1 being the first and 0 none.
fn write_choices(bytes: &mut [u8], log: &[Logged], wanted: &mut [u64])
    requires within { IsWithin (length bytes.old) log.now }
    requires wanted { length bytes.old / 512 ≤ length wanted.old }
    ensures { (s : ℕ) → slice_index wanted.old s ≤ length (values_at s log.now) →
        image_of bytes.new s
        ≡ slice_index_or (choices bytes.old log.now s) (slice_index wanted.old s) [] }
{
    for written in log {
        let sector = written.sector as usize;
        if wanted[sector] > 0 {
            wanted[sector] -= 1;
            put(bytes, written.sector, &written.value);
        }
    }
}

/// What a crash makes of these bytes and what was written since they were stable.
pub(crate) fn crashed(
    alloc: Global,
    pick: Pick,
    stable: &[u8],
    log: &[Logged],
) -> Result<Vec<u8>, AllocError>
    requires { IsWithin (length stable.now) log.now }
    ensures length { IfOk result (λ v. length v.items ≡ length stable.now) }
    ensures sectors { IfOk result (λ v. (s : ℕ) →
        image_of v.items s ≡ picked pick stable.now log.now s) }
{
    let mut bytes = Vec::from_slice(alloc, stable)?;
    let mut wanted = counts(alloc, stable.len() / 512, log)?;
    choose(pick, &mut wanted);
    write_choices(&mut bytes, log, &mut wanted);
    Ok(bytes)
}
