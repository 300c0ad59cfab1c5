//! One key more, or less, in rings that stand one behind the other: each ring behind the first one
//! takes a key from its neighbour and gives one on.

ghost use Rattle.std.specs.Prelude.{◌≡◌, ◌+◌, ◌*◌, ◌-◌, ◌<◌, ◌≤◌, [], ◌∷◌, ◌++◌, length, take, insert, remove};
ghost use Rattle.bc_extent.specs.Rings.{joined, AreFull};

use crate::ring::Ring;
use crate::slot::Slot;
use crate::slots::LENGTH;

/// Puts a key at a place of the first ring, moves all those behind it back by one, and takes out
/// the last one.
fn push_through(rings: &mut [Ring], place: usize, slot: Slot) -> Slot
    requires some { 0 < length rings.old }
    requires place { place < 512 }
    requires full { AreFull rings.old }
    ensures moved { joined rings.new ++ result ∷ [] ≡ insert (joined rings.old) place slot }
    ensures full { AreFull rings.new }
{
    let mut carried = rings[0].push_at(place, slot);
    for i in 1..rings.len() {
        carried = rings[i].push_front(carried);
    }
    carried
}

/// Takes out what stands at a place of the first ring, moves all those behind it to the front by
/// one, and puts a key at the end.
fn pull_through(rings: &mut [Ring], place: usize, slot: Slot) -> Slot
    requires some { 0 < length rings.old }
    requires place { place < 512 }
    requires full { AreFull rings.old }
    ensures moved { insert (joined rings.new) place result ≡ joined rings.old ++ slot ∷ [] }
    ensures full { AreFull rings.new }
{
    let mut carried = slot;
    let mut i = rings.len();
    while i > 1 {
        i -= 1;
        carried = rings[i].push_back(carried);
    }
    rings[0].pull_at(place, carried)
}

/// Puts a key before the one at this place, where the first `count` keys of the rings are in use.
/// Behind the last of them nothing moves.
pub fn insert_within(rings: &mut [Ring], count: usize, i: usize, slot: Slot)
    requires full { AreFull rings.old }
    requires within { i ≤ count }
    requires room { count < 512 * length rings.old }
    ensures keys { take (count + 1) (joined rings.new) ≡ insert (take count (joined rings.old)) i slot }
    ensures full { AreFull rings.new }
{
    if i == count {
        let _ = rings[i / LENGTH].swap_in(i % LENGTH, slot);
        return;
    }
    let first = i / LENGTH;
    let last = count / LENGTH;
    let _ = push_through(&mut rings[first..last + 1], i % LENGTH, slot);
}

/// Takes out the key at this place, where the first `count` keys of the rings are in use.
pub fn remove_within(rings: &mut [Ring], count: usize, i: usize)
    requires full { AreFull rings.old }
    requires within { i < count }
    requires room { count ≤ 512 * length rings.old }
    ensures keys { take (count - 1) (joined rings.new) ≡ remove (take count (joined rings.old)) i }
    ensures full { AreFull rings.new }
{
    let first = i / LENGTH;
    let last = (count - 1) / LENGTH;
    let _ = pull_through(&mut rings[first..last + 1], i % LENGTH, Slot::empty());
}
