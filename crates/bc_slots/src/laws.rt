//! What the parts come to, leaf by leaf: each law is the contract of a function. Those of parts speak
//! of what the device held when they were made.
ghost use Rattle.bc_slots.specs.Laws.{EachHasOne, FourMore, LastFourEmpty, NoneOpened, NoOther, PendingFit, SomeCanGo};

use bc_disk::disk::Disk;

/// A leaf of which the journal has keys is in one slot of its part, with these keys, and nobody holds
/// it; no slot has another leaf.
pub fn each_leaf_with_keys_is_in_one_slot<C: Disk>(_cache: &C)
    ensures one { EachHasOne (C.facts _cache.now) }
    ensures no_other { NoOther (C.facts _cache.now) }
{}

/// A part has four slots more than leaves. They are empty, so another leaf always finds a slot that it
/// may come into.
pub fn another_leaf_finds_a_slot<C: Disk>(_cache: &C)
    ensures slots { FourMore (C.facts _cache.now) }
    ensures empty { LastFourEmpty (C.facts _cache.now) }
    ensures some { SomeCanGo (C.facts _cache.now) }
{}

/// Where the journal has no keys, all slots are empty.
pub fn no_leaf_is_read_without_keys<C: Disk>(_cache: &C)
    ensures { NoneOpened (C.facts _cache.now) }
{}

/// The keys that leaves get of the journal are such as the parts take.
pub fn keys_of_the_journal_fit()
    ensures { PendingFit }
{}
