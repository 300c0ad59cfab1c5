//! A key in little memory. Nearly each key of a map has one pointer, and a `Key` has room for six:
//! so what is kept of a key is cut into a front of 24 bytes, with the first pointer, and a tail of
//! 40 bytes, with the others. Of a key with one pointer or none, the tail says nothing.

ghost use Rattle.std.specs.Prelude.{◌≡◌, ◌-◌, ◌^◌, ◌≤◌, ◌<◌, ◌/◌, ◌↔◌, IsTrue};
ghost use Rattle.bc_key.specs.Key.{start_of};
ghost use Rattle.bc_extent.specs.PtrWord.{ptr_in};
ghost use Rattle.bc_extent.specs.Ptrs.{ptr_within};

use bc_key::{Key, Ptr};
use std::marker::Model;

/// A key without the pointers behind its first one.
#[derive(Clone, Copy, Drop)]
pub struct Front {
    end: u64,
    /// The first pointer.
    word: u64,
    inode: u32,
    size: u16,
    dirty: bool,
    /// The number of pointers times 4, and the kind of data checksum.
    tags: u8,
    ghost end_fits: { end < 2 ^ 64 },
    ghost inode_fits: { inode < 2 ^ 20 },
    ghost size_fits: { size < 2 ^ 16 },
    ghost tags_fit: { tags < 28 },
}

/// The pointers of a key behind its first one.
#[derive(Clone, Copy, Drop)]
pub struct Tail {
    second: u64,
    third: u64,
    fourth: u64,
    fifth: u64,
    sixth: u64,
}

/// A kept key.
#[derive(Drop)]
pub struct Slot {
    pub front: Front,
    pub tail: Tail,
}

impl Model for Slot {
    ghost use Rattle.bc_key.specs.declared.key.Key.{Key};

    ghost Value = { Key };

    ghost use Rattle.bc_extent.specs.Slot.{key_in};

    ghost view = { λ s. key_in s.front s.tail };
}

/// The word of a pointer.
fn word_of(ptr: Ptr) -> u64
    ensures { ptr_in result ≡ ptr }
{
    u64::from(ptr.dev) * (1 << 51) + ptr.offset * (1 << 8) + u64::from(ptr.generation)
}

/// The pointer of a word.
fn ptr_of(word: u64) -> Ptr
    ensures { result ≡ ptr_in word }
{
    Ptr {
        dev: (word / (1 << 51) % (1 << 12)) as u16,
        offset: word / (1 << 8) % (1 << 43),
        generation: (word % (1 << 8)) as u8,
    }
}

/// The pointer in place `i` of a key that has so many, of which that place's word is kept.
fn ptr_at(count: u8, i: u8, word: u64) -> Ptr
    ensures { result ≡ ptr_within count i word }
{
    if i < count { ptr_of(word) } else { Ptr::ZERO }
}

impl Front {
    /// The front of a place that keeps no key.
    pub const EMPTY: Front = Front {
        end: 0,
        word: 0,
        inode: 0,
        size: 0,
        dirty: false,
        tags: 0,
    };

    /// The sector behind the key's last one.
    pub fn end(&self) -> u64
        ensures { result ≡ self.now.end }
    {
        self.end
    }

    /// The key's first sector.
    pub fn start(&self) -> u64
        ensures { result ≡ self.now.end - self.now.size }
    {
        self.end.saturating_sub(u64::from(self.size))
    }

    /// How many pointers the key has.
    pub fn pointers(&self) -> u8
        ensures { result ≡ self.now.tags / 4 }
    {
        self.tags / 4
    }

    /// Whether the key has pointers behind its first one.
    pub fn has_more(&self) -> bool
        ensures { IsTrue result ↔ (1 < self.now.tags / 4) }
    {
        self.tags / 4 > 1
    }
}

impl Tail {
    /// The tail of a key that has one pointer at most.
    pub const NONE: Tail = Tail {
        second: 0,
        third: 0,
        fourth: 0,
        fifth: 0,
        sixth: 0,
    };
}

impl Slot {
    ghost use Rattle.bc_extent.specs.Slot.{key_in};

    /// What stands in a place that keeps no key.
    pub fn empty() -> Slot {
        Slot {
            front: Front::EMPTY,
            tail: Tail::NONE,
        }
    }

    /// Keeps a key.
    pub fn new(key: &Key) -> Slot
        ensures { result ≡ key.now }
    {
        let [first, second, third, fourth, fifth, sixth] = key.ptrs;
        Slot {
            front: Front {
                end: key.end,
                word: word_of(first),
                inode: key.inode,
                size: key.size,
                dirty: key.dirty,
                tags: 4 * key.count + key.csum,
            },
            tail: Tail {
                second: word_of(second),
                third: word_of(third),
                fourth: word_of(fourth),
                fifth: word_of(fifth),
                sixth: word_of(sixth),
            },
        }
    }

    /// The key.
    pub fn key(&self) -> Key
        ensures { result ≡ self.now }
    {
        let Slot { front, tail } = self;
        let count = front.tags / 4;
        Key {
            inode: front.inode,
            end: front.end,
            size: front.size,
            dirty: front.dirty,
            csum: front.tags % 4,
            count,
            ptrs: [
                ptr_at(count, 0, front.word),
                ptr_at(count, 1, tail.second),
                ptr_at(count, 2, tail.third),
                ptr_at(count, 3, tail.fourth),
                ptr_at(count, 4, tail.fifth),
                ptr_at(count, 5, tail.sixth),
            ],
        }
    }
}
