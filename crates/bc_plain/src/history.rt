//! What a history says, worked out entry by entry.
//!
//! The entries that these functions take stand in the order of time, the oldest first. `opening` is
//! what the sectors held before the first of them, from sector 0 on: 512 bytes for each.
ghost use Rattle.std.specs.Prelude.{◌≡◌, ◌↔◌, ◌+◌, ◌*◌, ◌≤◌, ◌∷◌, length, reverse, IsTrue};
ghost use Rattle.bc_model.specs.History.{gives, may_give, now, IsRight, IsLegal, count_from, has_done, is_acknowledged, flushed, is_write, written_by, is_within, forced, floor, Allowed};
ghost use Rattle.bc_disk.specs.Bytes.{image_of};

use crate::image::{sector_of, value_at, value_of};
use bc_model::history::Entry;
use bc_model::sector::Sector;

// What the entry gives to this sector, if it is a write that covers it.
fn given(entry: &Entry, sector: u128) -> Option<Sector>
    ensures { result ≡ gives entry.now sector }
{
    match entry {
        Entry::Write { first, values, .. } => value_at(*first, values, sector),
        _ => None,
    }
}

// What the entry may have given to this sector, as a write that was done or tried.
fn maybe_given(entry: &Entry, sector: u128) -> Option<Sector>
    ensures { result ≡ may_give entry.now sector }
{
    match entry {
        Entry::Write { first, values, .. } => value_at(*first, values, sector),
        Entry::Tried { first, values } => value_at(*first, values, sector),
        _ => None,
    }
}

/// The value of a sector after these entries: that of the last write that covers it, or else that
/// of the opening image, within which the sector lies whole.
pub fn now(opening: &[u8], entries: &[Entry], sector: u64) -> Sector
    requires { 512 * sector + 512 ≤ length opening.now }
    ensures { result ≡ now (image_of opening.now) (reverse entries.now) sector }
{
    let mut value = value_of(opening, sector);
    for entry in entries {
        if let Some(new) = given(entry, u128::from(sector)) {
            value = new;
        }
    }
    value
}

// Whether this is the value of the sector after these entries.
fn is_now(opening: &[u8], entries: &[Entry], sector: u128, value: &Sector) -> bool
    ensures { IsTrue result
        ↔ (value.now ≡ now (image_of opening.now) (reverse entries.now) sector) }
{
    let mut same = sector_of(opening, sector) == value.as_slice();
    for entry in entries {
        if let Some(new) = given(entry, sector) {
            same = new == *value;
        }
    }
    same
}

// Whether the entry may stand behind these: a read gives what they make of each of its sectors.
fn is_right(opening: &[u8], before: &[Entry], entry: &Entry) -> bool
    ensures { IsTrue result ↔ IsRight entry.now (now (image_of opening.now) (reverse before.now)) }
{
    let Entry::Read { first, values, .. } = entry else {
        return true;
    };
    let mut right = true;
    for i in 0..values.len() {
        let sector = u128::from(*first) + u128::from(i);
        right &= is_now(opening, before, sector, &values.get(i));
    }
    right
}

/// Whether each read gives what the entries before it make of its sectors. A sector that doesn't
/// lie whole within the opening image has no value to be read before a write covers it.
pub fn is_legal(opening: &[u8], entries: &[Entry]) -> bool
    ensures { IsTrue result ↔ IsLegal (image_of opening.now) (reverse entries.now) }
{
    let mut legal = true;
    for (place, entry) in entries.iter().enumerate() {
        legal &= is_right(opening, &entries[..place], entry);
    }
    legal
}

// How many of the entries begin a flush of this worker's line.
fn count_from(entries: &[Entry], worker: u8, line: u32) -> usize
    ensures { result ≡ count_from worker line (reverse entries.now) }
{
    let mut count = 0;
    for entry in entries {
        if let Entry::FlushFrom {
            worker: by,
            line: of,
        } = entry
        {
            if *by == worker && *of == line {
                count += 1;
            }
        }
    }
    count
}

// Whether one of the entries ends a flush of this worker's line.
fn has_done(entries: &[Entry], worker: u8, line: u32) -> bool
    ensures { result ≡ has_done worker line (reverse entries.now) }
{
    let mut done = false;
    for entry in entries {
        if let Entry::FlushDone {
            worker: by,
            line: of,
        } = entry
        {
            done |= *by == worker && *of == line;
        }
    }
    done
}

// Whether the entry begins a flush that the entries acknowledge.
fn is_acknowledged(entries: &[Entry], entry: &Entry) -> bool
    ensures { result ≡ is_acknowledged (reverse entries.now) entry.now }
{
    match entry {
        Entry::FlushFrom { worker, line } => {
            count_from(entries, *worker, *line) == 1 && has_done(entries, *worker, *line)
        }
        _ => false,
    }
}

// How many entries the last acknowledged flush covers: those before its `FlushFrom`, or none where
// no flush is acknowledged.
fn flushed(entries: &[Entry]) -> usize
    ensures flushed { result ≡ flushed (reverse entries.now) }
    ensures within { result ≤ length entries.now }
{
    let mut covered = 0;
    for (place, entry) in entries.iter().enumerate() {
        if is_acknowledged(entries, entry) {
            covered = place;
        }
    }
    covered
}

// Whether the entry is the write of this worker's line whose range begins there.
fn is_write(entry: &Entry, by: u8, of: u32, at: u64) -> bool
    ensures { result ≡ is_write by of at entry.now }
{
    match entry {
        Entry::Write {
            worker,
            line,
            first,
            ..
        } => *worker == by && *line == of && *first == at,
        _ => false,
    }
}

// How many entries there are up to the last such write and with it.
fn written_by(entries: &[Entry], by: u8, of: u32, at: u64) -> usize
    ensures written { result ≡ written_by by of at (reverse entries.now) }
    ensures within { result ≤ length entries.now }
{
    let mut covered = 0;
    for (place, entry) in entries.iter().enumerate() {
        if is_write(entry, by, of, at) {
            covered = place + 1;
        }
    }
    covered
}

// Whether the sector is one of so many from the first on.
fn is_within(first: u64, count: u32, sector: u128) -> bool
    ensures { result ≡ is_within first count sector }
{
    u128::from(first) <= sector && sector < u128::from(first) + u128::from(count)
}

// How many entries the forced write that this entry acknowledges covers of the sector.
fn covered_by(before: &[Entry], entry: &Entry, sector: u128, covered: usize) -> usize
    requires { covered ≤ length before.now }
    ensures forced { covered ≡ forced (reverse before.now) sector
        → result ≡ forced (entry.now ∷ reverse before.now) sector }
    ensures within { result ≤ length before.now }
{
    match entry {
        Entry::Durable {
            worker,
            line,
            first,
            count,
        } => {
            if is_within(*first, *count, sector) {
                written_by(before, *worker, *line, *first).max(covered)
            } else {
                covered
            }
        }
        _ => covered,
    }
}

// How many entries the forced writes of the sector cover.
fn forced(entries: &[Entry], sector: u128) -> usize
    ensures forced { result ≡ forced (reverse entries.now) sector }
    ensures within { result ≤ length entries.now }
{
    let mut covered = 0;
    for (place, entry) in entries.iter().enumerate() {
        covered = covered_by(&entries[..place], entry, sector, covered);
    }
    covered
}

/// How many entries are covered of a sector: those before the last acknowledged flush, and those up
/// to the last write that a forced write of the sector acknowledges, whichever are more.
pub fn floor(entries: &[Entry], sector: u128) -> usize
    ensures floor { result ≡ floor (reverse entries.now) sector }
    ensures within { result ≤ length entries.now }
{
    flushed(entries).max(forced(entries, sector))
}

/// Whether the sector may show this value after a crash: it is the sector's value after the entries
/// that are covered of it, or one that a later write, done or tried, gives it.
pub fn is_allowed(opening: &[u8], entries: &[Entry], sector: u64, value: &Sector) -> bool
    ensures { IsTrue result
        ↔ Allowed (image_of opening.now) (reverse entries.now) sector value.now }
{
    let sector = u128::from(sector);
    let covered = floor(entries, sector);
    let later = &entries[covered..];
    let mut allowed = is_now(opening, &entries[..covered], sector, value);
    for entry in later {
        if let Some(given) = maybe_given(entry, sector) {
            allowed |= given == *value;
        }
    }
    allowed
}
