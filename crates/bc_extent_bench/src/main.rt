//! Measures what the calls of a large extent map cost: inserts of random small extents over sectors
//! that a given number of keys cover, keys replaced by what they are without their dirty bit, and
//! erases. `bench/extent.cpp` makes the same calls of an ordered map.
#![tactic(auto)]

ghost use Rattle.std.specs.Prelude.{◌≡◌, ℕ, ◌+◌, ◌*◌, ◌<◌, ◌≤◌, ◌^◌, ◌++◌, [], ◌∷◌, OnOk};
ghost use Rattle.bc_key.specs.Key.{IsExtent};
ghost use Rattle.bc_extent.specs.LastKey.{last_key};
ghost use Rattle.bc_extent.specs.Extents.{Shows};

use bc_extent::Extents;
use bc_key::{Key, Ptr};
use std::alloc::{AllocError, Global};
use std::process::ExitCode;
use std::time::{CpuClock, Duration};
use std::{env, io};

/// How many sectors an inserted extent has at most.
const LONGEST: u64 = 8;

/// How much is done.
#[derive(Clone, Copy)]
struct Work {
    /// How many keys the map has at first, and about so many afterwards too.
    keys: u32,
    /// How many extents are inserted, keys replaced, and ranges erased.
    calls: u32,
    ghost some_keys: { 4 ≤ keys },
}

/// What a run with no words does.
const SMALL: Work = Work {
    keys: 1000,
    calls: 1000,
};

/// Numbers that look random.
#[derive(Drop)]
struct Random(u64);

impl Random {
    /// The next one, below `limit`.
    fn below(&mut self, limit: u64) -> u64
        requires { 0 < limit }
        ensures { result < limit }
    {
        self.0 = self
            .0
            .wrapping_mul(6_364_136_223_846_793_005)
            .wrapping_add(1_442_695_040_888_963_407);
        (self.0 >> 33) % limit
    }
}

// The sector at which key `i` of the first ones begins: each of them has two or three sectors.
// Random inserts of 1 to 8 sectors keep the number of keys about there, since a sector begins a key
// with a chance of 4 in 11 in the long run.
fn first_sector(i: u32) -> u64
    ensures low { result * 4 ≤ i * 11 }
    ensures high { i * 11 < result * 4 + 4 }
{
    u64::from(i) * 11 / 4
}

// A dirty key of these sectors. Its data is the extent with this number.
fn extent(first: u64, size: u16, number: u64) -> Key
    requires first { first < 2 ^ 40 }
    requires number { number < 2 ^ 40 }
    ensures { IsExtent result }
{
    let pointer = Ptr {
        dev: 0,
        offset: LONGEST * number,
        generation: 0,
    };
    Key::new(first + u64::from(size), size, true, Some(pointer))
}

// Makes room for a key, and inserts it.
fn add(map: &mut Extents, key: &Key) -> Result<(), AllocError>
    requires { IsExtent key.now }
    ensures { OnOk result (Shows (last_key (map.old.keys ++ key.now ∷ [])) map.new.keys) }
{
    map.reserve(2)?;
    map.insert(key);
    Ok(())
}

// A map of so many keys, one behind the other.
fn filled(alloc: Global, keys: u32) -> Result<Extents, AllocError> {
    let mut map = Extents::new(alloc);
    for i in 0..keys {
        let first = first_sector(i);
        let size = (first_sector(i + 1) - first) as u16;
        add(&mut map, &extent(first, size, u64::from(i)))?;
    }
    Ok(map)
}

// Inserts so many extents of 1 to 8 sectors, somewhere in the sectors of the first keys.
fn insert_some(
    map: &mut Extents,
    random: &mut Random,
    work: Work,
    count: u32,
) -> Result<(), AllocError> {
    let places = first_sector(work.keys) - LONGEST;
    for n in 0..count {
        let first = random.below(places);
        let size = 1 + random.below(LONGEST) as u16;
        let number = u64::from(work.keys) + u64::from(n);
        add(map, &extent(first, size, number))?;
    }
    Ok(())
}

// Looks up so many sectors, and replaces the key of each by one of the other state.
fn replace_all(map: &mut Extents, random: &mut Random, work: Work) {
    let places = first_sector(work.keys);
    for _ in 0..work.calls {
        if let Some(key) = map.lookup(random.below(places)) {
            let mut other = key;
            other.dirty = !key.dirty;
            map.replace(&key, &other);
        }
    }
}

// Erases so many ranges of 1 to 8 sectors.
fn erase_some(
    map: &mut Extents,
    random: &mut Random,
    work: Work,
    count: u32,
) -> Result<(), AllocError> {
    let places = first_sector(work.keys) - LONGEST;
    for _ in 0..count {
        map.reserve(1)?;
        let first = random.below(places);
        map.erase(first, 1 + random.below(LONGEST) as u32);
    }
    Ok(())
}

// Erases as many ranges as are asked for, some at a time, with as many inserts after them, and answers
// what processor time the erases took.
fn erase_all<R: CpuClock + AllocGlobal>(
    rt: &R,
    map: &mut Extents,
    random: &mut Random,
    work: Work,
) -> io::Result<Duration> {
    let block = work.keys / 8 + 1;
    let mut spent = Duration::ZERO;
    for _ in 0..work.calls / block {
        let begun = rt.process_cpu_time()?;
        erase_some(map, random, work, block)?;
        let ended = rt.process_cpu_time()?;
        let more = ended.checked_sub(begun).unwrap_or(Duration::ZERO);
        spent = spent.saturating_add(more);
        insert_some(map, random, work, block)?;
    }
    Ok(spent)
}

// A number that tells the keys from others.
fn sum_of(map: &Extents) -> u64 {
    let mut sum = 0u64;
    for i in 0..map.len() {
        let key = map.key(i);
        for word in [
            key.start(),
            key.end,
            key.ptrs[0].offset,
            u64::from(key.dirty),
        ] {
            sum = sum.wrapping_mul(31).wrapping_add(word);
        }
    }
    sum
}

// What these arguments ask for, or `None` where they are wrong.
fn work_of(arguments: &[String]) -> Option<Work> {
    match arguments {
        [] => Some(SMALL),
        [keys, calls] => {
            let keys = keys.parse::<u32>().ok()?;
            let calls = calls.parse::<u32>().ok()?;
            if keys < 4 {
                return None;
            }
            Some(Work { keys, calls })
        }
        _ => None,
    }
}

// Does the work, and prints how many keys are left, their sum and the microseconds of processor time of
// the inserts, of the replaces and of the erases.
fn run<R: CpuClock + Print + AllocGlobal>(rt: &R, work: Work, timed: bool) -> io::Result<ExitCode> {
    let mut map = filled(rt.alloc(), work.keys)?;
    let mut random = Random(7);
    let begun = rt.process_cpu_time()?;
    insert_some(&mut map, &mut random, work, work.calls)?;
    let inserted = rt.process_cpu_time()?;
    replace_all(&mut map, &mut random, work);
    let replaced = rt.process_cpu_time()?;
    let erasing = erase_all(rt, &mut map, &mut random, work)?;
    println!(rt; "{} keys, sum {}", map.len(), sum_of(&map))?;
    if timed {
        let inserting = inserted.checked_sub(begun).unwrap_or(Duration::ZERO);
        let replacing = replaced.checked_sub(inserted).unwrap_or(Duration::ZERO);
        for spent in [inserting, replacing, erasing] {
            println!(rt; "{} us", spent.as_micros())?;
        }
    }
    Ok(ExitCode::SUCCESS)
}

fn main(rt: HostRuntime) -> io::Result<ExitCode> {
    let arguments: Vec<String> = env::args(&rt)?.skip(1).collect(rt.alloc())?;
    match work_of(&arguments) {
        Some(work) => run(&rt, work, !arguments.is_empty()),
        None => {
            eprintln!(rt; "usage: bc_extent_bench [KEYS CALLS]")?;
            Ok(ExitCode::from(2))
        }
    }
}
