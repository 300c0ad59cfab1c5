//! What is in hand for keys, and whether it has room for them.
ghost use Rattle.std.specs.Prelude.{ℕ, IfNone, IfSome};
ghost use Rattle.bc_cache.specs.Slots.{IsSlotOf};
ghost use Rattle.bc_write_back.specs.Room.{HasRoomFor, HasThree, IsShort};

use crate::error::Lack;
use bc_cache::Cached;
use bc_journal::Journal;
use bc_key::Key;
use bc_keys::word_count;
use bc_stored::bc_hand::hand::Hand;

// The number behind the last one that an entry may have.
const NUMBERS_END: u64 = 1 << 63;

// What has no room for these keys: the leaf in a slot, or the journal.
fn lack_of(cached: &Cached, journal: &Journal, keys: &[Key]) -> Option<Lack>
    ensures some { IfSome result (λ why. IsShort why cached.now journal.now keys.now) }
    ensures none { IfNone result (HasRoomFor cached.now journal.now keys.now) }
{
    if cached.held {
        return Some(Lack::Leaf);
    }
    if !journal.room(word_count(keys)) {
        return Some(Lack::Entry);
    }
    if journal.number() >= NUMBERS_END {
        return Some(Lack::Number);
    }
    None
}

/// What in hand has no room for these keys of the leaf of this number.
pub fn lack_in<C, B>(hand: &Hand<C, B>, number: u32, keys: &[Key]) -> Option<Lack>
    requires three { (parts first count : ℕ) × HasThree hand.now parts number first count }
    ensures slot { (parts first count : ℕ) (three : HasThree hand.now parts number first count)
        → IsSlotOf three.leaf.hand.cache.slots number three.slot }
    ensures some { IfSome result (λ why. (parts first count : ℕ)
        (three : HasThree hand.now parts number first count)
        → IsShort why three.cached three.journal keys.now) }
    ensures none { IfNone result ((parts first count : ℕ)
        (three : HasThree hand.now parts number first count)
        → HasRoomFor three.cached three.journal keys.now) }
{
    let Some(leaves) = &hand.leaves else {
        unreachable!()
    };
    let Some(journal) = &hand.journal else {
        unreachable!()
    };
    let Some(slot) = leaves.cache.find(number) else {
        unreachable!()
    };
    let Some(cached) = leaves.cache.slot(slot) else {
        unreachable!()
    };
    lack_of(cached, journal.get(), keys)
}
