//! Slots, and which of them is used next.
ghost use Rattle.std.specs.Prelude.{◌≡◌, ◌↔◌, ◌<◌, ◌≤◌, length, slice_get, IfSome, IsSome, IsTrue, MatchOption};
ghost use Rattle.std.specs.Borrow.{sem};
ghost use Rattle.bc_cache.specs.Lending.{LendsIn};
ghost use Rattle.bc_disk.specs.Device.{next_count};
ghost use Rattle.bc_cache.specs.Slots.{CanGo, HasLeaf, HasNumber, IsOldest, Misses, NoneCanGo, last_use};
ghost use Rattle.bc_cache.specs.Search.{AreOldest, older_of, with_hold, with_use};

use bc_node::Leaf;

/// A leaf in a slot.
#[derive(Drop)]
pub struct Cached {
    /// Its number among the leaves of the index.
    pub number: u32,
    /// The leaf.
    pub leaf: Leaf,
    /// Whether somebody works on it over several steps.
    pub held: bool,
    /// The number of its last use.
    pub used: u64,
}

/// Whether a slot has the leaf of this number.
fn has(slot: &Option<Cached>, number: u32) -> bool
    ensures { IsTrue result ↔ HasNumber slot.now number }
{
    match slot {
        None => false,
        Some(cached) => cached.number == number,
    }
}

/// The slot that has the leaf of this number.
pub fn slot_of(slots: &[Option<Cached>], number: u32) -> Option<usize>
    ensures { MatchOption result (Misses slots.now number)
        (λ slot. HasLeaf slots.now slot number) }
{
    for (i, slot) in slots.iter().enumerate() {
        if has(slot, number) {
            return Some(i);
        }
    }
    None
}

/// When the slot was used last, where another leaf may come into it.
fn free_since(slot: &Option<Cached>) -> Option<u64>
    ensures { MatchOption result (¬ (CanGo slot.now))
        (λ used. CanGo slot.now × (used ≡ last_use slot.now)) }
{
    match slot {
        None => Some(0),
        Some(cached) => {
            let leaf = &cached.leaf;
            if cached.held || !leaf.pending().is_empty() || leaf.entries().is_some() {
                return None;
            }
            Some(cached.used)
        }
    }
}

/// A slot that another leaf may come into, and when it was used last.
#[derive(Clone, Copy, Drop)]
struct Found {
    slot: usize,
    used: u64,
}

/// Of two such slots, the second one where it was used before the other.
fn older(known: Option<Found>, slot: usize, used: Option<u64>) -> Option<Found>
    ensures { result ≡ older_of known slot used }
{
    let Some(used) = used else {
        return known;
    };
    if let Some(found) = known
        && found.used <= used
    {
        return known;
    }
    Some(Found { slot, used })
}

/// The slot that another leaf comes into next: of those that it may come into, the one that was used
/// longest ago, an empty one first. None where there is no such slot.
pub fn oldest(slots: &[Option<Cached>]) -> Option<usize>
    ensures { MatchOption result (NoneCanGo slots.now) (IsOldest slots.now) }
{
    let mut known = None;
    for (i, slot) in slots.iter().enumerate() {
        known = older(known, i, free_since(slot));
    }
    match known {
        None => None,
        Some(found) => Some(found.slot),
    }
}

/// The number of the next use.
pub fn next_use(uses: u64) -> u64
    ensures { result ≡ next_count uses }
{
    uses.saturating_add(1)
}

/// Makes this the last use of a slot.
pub fn set_used(slot: &mut Option<Cached>, used: u64)
    ensures { slot.new ≡ with_use slot.old used }
{
    if let Some(cached) = slot {
        cached.used = used;
    }
}

/// Begins or ends a hold of a slot.
pub fn set_held(slot: &mut Option<Cached>, held: bool)
    ensures { slot.new ≡ with_hold slot.old held }
{
    if let Some(cached) = slot {
        cached.held = held;
    }
}

/// The leaf in a slot that has one, to be changed.
pub fn leaf_in(slot: &mut Option<Cached>) -> &mut Leaf
    requires { IsSome slot.old }
    ensures* lends { sem 𝓛 (LendsIn slot.entry result) }
    ensures leaf { IfSome slot.old (λ cached. result.now ≡ cached.leaf) }
{
    match slot {
        Some(cached) => &mut cached.leaf,
        None => unreachable!(),
    }
}
