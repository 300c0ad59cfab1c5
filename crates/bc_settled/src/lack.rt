//! Whether what is in hand is ready for a candidate's key.
ghost use Rattle.std.specs.Prelude.{ℕ, IfNone, IfSome};
ghost use Rattle.bc_cache.specs.Slots.{IsSlotOf};
ghost use Rattle.bc_settled.specs.Room.{HasFour, IsReady, IsShort};

use crate::come::Lack;
use bc_cache::Cached;
use bc_journal::Journal;
use bc_settle::bc_hand::hand::Hand;

// The number behind the last one that an entry may have.
const NUMBERS_END: u64 = 1 << 63;

// The words of a key with one pointer.
const KEY_WORDS: usize = 3;

// What isn't ready: the leaf in a slot, or the journal.
fn lack_of(cached: &Cached, journal: &Journal) -> Option<Lack>
    ensures some { IfSome result (λ why. IsShort why cached.now journal.now) }
    ensures none { IfNone result (IsReady cached.now journal.now) }
{
    if cached.held {
        return Some(Lack::Leaf);
    }
    if !journal.room(KEY_WORDS) {
        return Some(Lack::Entry);
    }
    if journal.number() >= NUMBERS_END {
        return Some(Lack::Number);
    }
    None
}

/// What in hand isn't ready for a key of the leaf of this number.
pub(crate) fn lack_in<C, B>(hand: &Hand<C, B>, number: u32) -> Option<Lack>
    requires four { (parts first count : ℕ) × HasFour hand.now parts number first count }
    ensures slot { (parts first count : ℕ) (four : HasFour hand.now parts number first count)
        → IsSlotOf four.leaf.hand.cache.slots number four.slot }
    ensures some { IfSome result (λ why. (parts first count : ℕ)
        (four : HasFour hand.now parts number first count)
        → IsShort why four.cached four.journal) }
    ensures none { IfNone result ((parts first count : ℕ)
        (four : HasFour hand.now parts number first count)
        → IsReady four.cached four.journal) }
{
    let Some(leaves) = &hand.leaves else {
        unreachable!()
    };
    let Some(journal) = &hand.journal else {
        unreachable!()
    };
    let Some(slot) = leaves.cache.find(number) else {
        unreachable!()
    };
    let Some(cached) = leaves.cache.slot(slot) else {
        unreachable!()
    };
    lack_of(cached, journal.get())
}
