//! Keys that are put into the parts in hand.
ghost use Rattle.std.specs.Prelude.{ℕ, ◌≡◌, Some};
ghost use Rattle.bc_cache.specs.Slots.{HasLeaf, IsSlotOf};
ghost use Rattle.bc_cache.specs.declared.slots.Cached.{Cached};
ghost use Rattle.bc_place.specs.bc_hand.declared.hand.LeafHand.{LeafHand};
ghost use Rattle.bc_journal.specs.Journal.{IsJournal, Journal, number_of};
ghost use Rattle.bc_insert.specs.Insert.{CanAdd, CanPutIn, HasAdded, HasPutIn};

use bc_cache::NodeCache;
use bc_key::Key;
use bc_place::bc_hand::hand::Hand;

/// The slot of the part in hand that has the leaf of this number.
pub fn slot_in<C, B>(hand: &Hand<C, B>, leaf: u32) -> u32
    requires { (leaves : LeafHand) × (slot : ℕ) × (hand.now.leaves ≡ Some leaves)
        × HasLeaf leaves.cache.slots slot leaf }
    ensures { (leaves : LeafHand) → hand.now.leaves ≡ Some leaves
        → IsSlotOf leaves.cache.slots leaf result }
{
    let Some(leaves) = &hand.leaves else {
        unreachable!()
    };
    let Some(slot) = leaves.cache.find(leaf) else {
        unreachable!()
    };
    slot
}

/// The number of the entry for which keys wait in the journal in hand. What its type says holds once
/// it is read.
pub fn next_entry<C, B>(hand: &Hand<C, B>) -> u64
    requires { (journal : Journal) × (hand.now.journal ≡ Some journal) }
    ensures { (journal : Journal) → hand.now.journal ≡ Some journal
        → IsJournal journal × (result ≡ number_of journal) }
{
    let Some(journal) = &hand.journal else {
        unreachable!()
    };
    journal.get().number()
}

// Adds keys to the leaf in a slot, as keys that the entry of this number will hold.
fn add_to(cache: &mut NodeCache, slot: u32, keys: &[Key], entry: u64)
    requires { (number : ℕ) × (cached : Cached) × CanAdd cache.old slot number cached keys.now }
    ensures { (number : ℕ) (cached : Cached) → CanAdd cache.old slot number cached keys.now
        → HasAdded cache.old slot cached keys.now entry cache.new }
{
    cache.node(slot).add(keys, entry);
}

/// Puts keys into the leaf in a slot of the part in hand, and behind those that wait for the
/// journal's next entry. Takes no memory.
pub fn put_in<C, B>(hand: &mut Hand<C, B>, slot: u32, keys: &[Key])
    requires { (parts number : ℕ) × (cached : Cached)
        × CanPutIn hand.old parts slot number cached keys.now }
    ensures { (parts number : ℕ) (cached : Cached)
        → CanPutIn hand.old parts slot number cached keys.now
        → HasPutIn hand.old hand.new slot cached keys.now }
{
    let Some(mut journal) = hand.journal.take() else {
        unreachable!()
    };
    let entry = journal.get_mut().add(keys);
    hand.journal = Some(journal);
    let Some(mut leaves) = hand.leaves.take() else {
        unreachable!()
    };
    add_to(&mut leaves.cache, slot, keys, entry);
    hand.leaves = Some(leaves);
}
