//! Keys that lose a part of their range.

ghost use Rattle.std.specs.Prelude.{◌≤◌, ◌+◌, ◌-◌};
ghost use Rattle.bc_key.specs.Key.{IsExtent, start_of};
ghost use Rattle.bc_key.specs.Cut.{CutsFront, CutsBack, MovesPtr, Narrows};

use crate::key::Key;
use crate::ptr::Ptr;

/// The pointer to what lies `n` sectors further on; offsets count modulo 2^43.
fn moved(ptr: Ptr, n: u16) -> Ptr
    ensures { MovesPtr n ptr result }
{
    Ptr {
        dev: ptr.dev,
        offset: (ptr.offset + u64::from(n)) % (1 << 43),
        generation: ptr.generation,
    }
}

/// The key without its first `n` sectors: each pointer moves on by as many, modulo 2^43.
pub fn cut_front(k: &Key, n: u16) -> Key
    requires { n ≤ k.now.size }
    ensures cut { CutsFront n k.now result }
    ensures narrower { IsExtent k.now
        → Narrows k.now result (start_of k.now + n) k.now.end }
{
    let mut ptrs = k.ptrs;
    for i in 0..usize::from(k.count) {
        ptrs[i] = moved(ptrs[i], n);
    }
    Key {
        inode: k.inode,
        end: k.end,
        size: k.size - n,
        dirty: k.dirty,
        csum: k.csum,
        count: k.count,
        ptrs,
    }
}

/// The key without its last `n` sectors. The pointers stay.
pub fn cut_back(k: &Key, n: u16) -> Key
    requires size { n ≤ k.now.size }
    requires end { n ≤ k.now.end }
    ensures cut { CutsBack n k.now result }
    ensures narrower { IsExtent k.now
        → Narrows k.now result (start_of k.now) (k.now.end - n) }
{
    Key {
        inode: k.inode,
        end: k.end - u64::from(n),
        size: k.size - n,
        dirty: k.dirty,
        csum: k.csum,
        count: k.count,
        ptrs: k.ptrs,
    }
}
