//! The same pairs, judged by both programs.
ghost use Rattle.bc_plain_pair.specs.PairBytes.{AreSectors};

use crate::tally::{Difference, Tally, said_by};
use bc_check::check_pair;
use bc_disk::mem_disk::MemDisk;
use bc_pair::error::PairError;
use bc_plain_pair::editor::{Random, edit};
use bc_plain_pair::first::{Said, tell};
use bc_plain_pair::layouts::{LAYOUTS, Layout, sound_pair};
use bc_plain_pair::sound::is_sound;
use std::alloc::{AllocError, Global};

// What the check says of the pair of these bytes.
fn checked(alloc: Global, cache: &[u8], backing: &[u8]) -> Result<Option<Said>, AllocError>
    requires cache { AreSectors cache.now }
    requires backing { AreSectors backing.now }
{
    let mut first = MemDisk::new(alloc, Vec::from_slice(alloc, cache)?, 0)?;
    let mut second = MemDisk::new(alloc, Vec::from_slice(alloc, backing)?, 0)?;
    Ok(said_by(check_pair(alloc, &mut first, &mut second)))
}

// Judges a pair by both, and counts what the slow program says of it.
fn judge(
    alloc: Global,
    number: u64,
    cache: &[u8],
    backing: &[u8],
    tally: &mut Tally,
) -> Result<Said, AllocError>
    requires cache { AreSectors cache.now }
    requires backing { AreSectors backing.now }
{
    let plain = tell(alloc, cache, backing)?;
    let sound = is_sound(alloc, cache, backing)?;
    let checked = checked(alloc, cache, backing)?;
    tally.count(plain);
    if checked != Some(plain) || sound != plain.is_sound() {
        tally.differing.push(Difference {
            number,
            plain,
            sound,
            checked,
        })?;
    }
    Ok(plain)
}

// Makes random changes in a copy of a pair, and judges that one.
fn judge_changed(
    alloc: Global,
    l: &Layout,
    number: u64,
    cache: &[u8],
    backing: &[u8],
    tally: &mut Tally,
) -> Result<(), AllocError>
    requires cache { AreSectors cache.now }
    requires backing { AreSectors backing.now }
{
    let mut first = Vec::from_slice(alloc, cache)?;
    let mut second = Vec::from_slice(alloc, backing)?;
    edit(&mut first, &mut second, l, &mut Random::new(number));
    judge(alloc, number, &first, &second, tally)?;
    Ok(())
}

/// Judges the sound pair of each layout, and so many changed ones of each. Tells how many of the
/// sound ones were said to be so, with their numbers of dirty and clean sectors.
pub fn compare(alloc: Global, rounds: u32) -> Result<(u32, Tally), PairError> {
    let mut tally = Tally::new(alloc);
    let mut sound: u32 = 0;
    for i in 0..8usize {
        let l = LAYOUTS[i];
        let (cache, backing) = sound_pair(alloc, &l)?;
        let (dirty, clean) = l.counts();
        let wanted = Said::Sound { dirty, clean };
        if judge(alloc, i as u64, &cache, &backing, &mut tally)? == wanted {
            sound = sound.saturating_add(1);
        }
        for round in 0..u64::from(rounds) {
            let number = 8 * round + i as u64;
            judge_changed(alloc, &l, number, &cache, &backing, &mut tally)?;
        }
    }
    Ok((sound, tally))
}
