//! An extent map beside its plain form in one vector, and beside a plain list of keys in which an
//! erase is a key that stands for none.
ghost use Rattle.std.specs.Prelude.{◌≡◌, ◌^◌, ◌<◌, ◌≤◌};

use bc_extent::Extents;
use bc_key::{Key, Ptr, check_extent, cut_back, cut_front, decode};
use bc_plain::extent::last_key;
use bc_plain::vector::PlainExtents;
use std::alloc::Global;
use std::test::Fail;

/// How many sectors the random calls speak of.
const SECTORS: u64 = 64;

/// How many they speak of where there are many keys.
const MANY_SECTORS: u64 = 8192;

/// The kind of data checksum of a key that stands for none.
const ERASED: u8 = 3;

/// Numbers that look random.
#[derive(Drop)]
struct Random(u64);

impl Random {
    /// The next one, below `limit`.
    fn below(&mut self, limit: u64) -> u64
        requires { 0 < limit }
        ensures { result < limit }
    {
        self.0 = self
            .0
            .wrapping_mul(6_364_136_223_846_793_005)
            .wrapping_add(1_442_695_040_888_963_407);
        (self.0 >> 33) % limit
    }
}

/// A dirty key of these sectors with so many pointers, 6 at most, which no other number gives.
fn key(first: u64, size: u64, count: u64, number: u64) -> Option<Key> {
    let high = (count << 60) | (1 << 36) | (size << 20);
    let place = number.wrapping_mul(6 << 20);
    let mut words = [0; 8];
    for i in 0..6u64 {
        words[2 + i as usize] = place.wrapping_add(i << 20);
    }
    words[0] = high;
    words[1] = first.wrapping_add(size);
    let (key, _) = decode(&words).ok()?;
    Some(key)
}

/// The key without the sectors before `from` and from `to` on.
fn part_of(whole: &Key, from: u64, to: u64) -> Option<Key> {
    let front = u16::try_from(from.checked_sub(whole.start())?).ok()?;
    let back = u16::try_from(whole.end.checked_sub(to)?).ok()?;
    if back > whole.size || u64::from(back) > whole.end {
        return None;
    }
    let rest = cut_back(whole, back);
    if front > rest.size {
        return None;
    }
    Some(cut_front(&rest, front))
}

/// The key of the list for the sector, cut to the sectors around it that have the same one.
fn shown(list: &[Key], sector: u64) -> Option<Key> {
    let whole = last_key(list, sector)?;
    if whole.csum == ERASED {
        return None;
    }
    let mut from = whole.start();
    for at in whole.start()..sector {
        if last_key(list, at) != Some(whole) {
            from = at + 1;
        }
    }
    let mut to = whole.end;
    for at in (sector..whole.end).rev() {
        if last_key(list, at) != Some(whole) {
            to = at;
        }
    }
    part_of(&whole, from, to)
}

/// The map, its plain form, and the keys that came, the newest last.
#[derive(Drop)]
struct Maps {
    map: Extents,
    plain: PlainExtents,
    list: Vec<Key>,
    /// How many keys of one pointer at most gave way to keys of several.
    widened: u32,
    /// How many keys of several pointers gave way to keys of one at most.
    narrowed: u32,
}

impl Maps {
    fn new(alloc: Global) -> Maps {
        Maps {
            map: Extents::new(alloc),
            plain: PlainExtents::new(alloc),
            list: Vec::new(alloc),
            widened: 0,
            narrowed: 0,
        }
    }

    /// Whether both forms of the map have the same keys.
    fn are_same(&self) -> bool {
        let keys = self.plain.keys();
        if self.map.len() != keys.len() {
            return false;
        }
        for i in 0..self.map.len() {
            if self.map.key(i) != keys[i] {
                return false;
            }
        }
        true
    }

    /// Whether the map has the keys that the list shows, each once and in order, and no other.
    fn agree(&self) -> bool {
        let mut place = 0;
        for sector in 0..SECTORS + 16 {
            let found = shown(&self.list, sector);
            if self.map.lookup(sector) != found {
                return false;
            }
            if let Some(key) = found
                && key.start() == sector
            {
                if place >= self.map.len() || self.map.key(place) != key {
                    return false;
                }
                place += 1;
            }
        }
        place == self.map.len()
    }

    /// Takes sectors out.
    fn erase(&mut self, first: u64, size: u64) -> Result<(), Fail>
        requires map { 1 ≤ self.old.map.spare }
        requires plain { 1 ≤ self.old.plain.spare }
        requires few { size < 12 }
    {
        self.map.erase(first, size as u32);
        self.plain.erase(first, size as u32);
        let mut none = Key::new(first.wrapping_add(size), size as u16, false, None);
        none.csum = ERASED;
        self.list.push(none)?;
        Ok(())
    }

    /// Puts another key in the place of one, and says whether both forms found it.
    fn replace(&mut self, old: &Key, new: &Key) -> Result<bool, Fail>
        requires end { new.now.end ≡ old.now.end }
        requires size { new.now.size ≡ old.now.size }
    {
        if old.count <= 1 && new.count > 1 {
            self.widened = self.widened.saturating_add(1);
        }
        if old.count > 1 && new.count <= 1 {
            self.narrowed = self.narrowed.saturating_add(1);
        }
        self.list.push(*new)?;
        Ok(self.map.replace(old, new) && self.plain.replace(old, new))
    }

    /// Makes a random change, and says whether a key that was there was replaced, and no other.
    fn change(&mut self, random: &mut Random, sectors: u64, number: u64) -> Result<bool, Fail>
        requires { 0 < sectors }
    {
        self.map.reserve(2)?;
        self.plain.reserve(2)?;
        let first = random.below(sectors);
        let size = random.below(12);
        let newest = key(first, size, random.below(7), number).ok_or("no key")?;
        check_extent(&newest)?;
        match random.below(4) {
            0 => {
                self.erase(first, size)?;
                Ok(true)
            }
            1 => {
                // A key without pointers has nothing of its number, and so may be there.
                if newest.count > 0 && self.map.replace(&newest, &newest) {
                    return Ok(false);
                }
                let Some(part) = self.map.lookup(first) else {
                    return Ok(true);
                };
                // Of any number of pointers, whatever the key in its place has.
                let size = u64::from(part.size);
                let mut other = key(part.start(), size, random.below(7), number).ok_or("no key")?;
                other.end = part.end;
                other.size = part.size;
                other.dirty = !part.dirty;
                self.replace(&part, &other)
            }
            _ => {
                self.map.insert(&newest);
                self.plain.insert(&newest);
                self.list.push(newest)?;
                Ok(true)
            }
        }
    }
}

#[test]
fn ten_thousand_changes(rt: HostRuntime) -> Result<(), Fail> {
    let mut random = Random(7);
    for round in 0..25u64 {
        let mut maps = Maps::new(rt.alloc());
        for step in 0..400u64 {
            assert!(rt; maps.change(&mut random, SECTORS, round * 400 + step)?);
            assert!(rt; maps.are_same(), "{round} {step}");
            let sector = random.below(SECTORS);
            assert_eq!(rt; maps.map.lookup(sector), shown(&maps.list, sector));
            if step % 50 == 49 {
                assert!(rt; maps.agree(), "{round} {step}");
            }
        }
        assert!(rt; maps.widened > 0 && maps.narrowed > 0);
    }
    Ok(())
}

#[test]
fn ten_thousand_changes_of_many_keys(rt: HostRuntime) -> Result<(), Fail> {
    let mut random = Random(11);
    let mut maps = Maps::new(rt.alloc());
    for step in 0..10_000u64 {
        assert!(rt; maps.change(&mut random, MANY_SECTORS, step)?);
        if step % 500 == 499 {
            assert!(rt; maps.are_same(), "{step}");
        }
    }
    // More than two of the map's rings, and many of both kinds of replaced keys.
    assert!(rt; maps.map.len() > 1024);
    assert!(rt; maps.widened > 100 && maps.narrowed > 100);
    Ok(())
}

/// A pointer to this sector of the cache device.
fn at(offset: u64) -> Option<Ptr>
    requires { offset < 2 ^ 43 }
{
    Some(Ptr {
        dev: 0,
        offset,
        generation: 0,
    })
}

#[test]
fn a_key_is_split(rt: HostRuntime) -> Result<(), Fail> {
    let mut map = Extents::new(rt.alloc());
    map.reserve(4)?;
    map.insert(&Key::new(16, 16, true, at(1000)));
    map.insert(&Key::new(8, 4, true, at(2000)));
    let keys = [
        Key::new(4, 4, true, at(1000)),
        Key::new(8, 4, true, at(2000)),
        Key::new(16, 8, true, at(1008)),
    ];
    assert_eq!(rt; map.len(), 3);
    for i in 0..3 {
        assert_eq!(rt; map.key(i), keys[i]);
    }
    // The last sector that there is, and keys that cover none.
    let last = Key::new(u64::MAX, 1, false, None);
    map.reserve(4)?;
    map.insert(&last);
    map.insert(&Key::new(u64::MAX, 0, true, None));
    assert_eq!(rt; map.lookup(u64::MAX - 1), Some(last));
    assert_eq!(rt; map.lookup(u64::MAX), None);
    map.reserve(2)?;
    map.erase(0, u32::MAX);
    assert_eq!(rt; map.len(), 1);
    map.erase(u64::MAX - 1, u32::MAX);
    assert!(rt; map.is_empty());
    Ok(())
}
