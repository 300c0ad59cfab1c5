//! Room in a leaf.
ghost use Rattle.std.specs.Prelude.{ℕ, ◌≡◌, Some};
ghost use Rattle.bc_cache.specs.Slots.{HasLeaf, IsOccupied};
ghost use Rattle.bc_fetch.specs.bc_hand.declared.hand.LeafHand.{LeafHand};
ghost use Rattle.bc_room.specs.Room.{HasReserved, IsReserved};

use bc_cache::NodeCache;
use bc_fetch::bc_hand::hand::Hand;
use std::alloc::AllocError;

// Reserves room for so many keys in the leaf in a slot.
fn reserve_in(cache: &mut NodeCache, slot: u32, more: u32) -> Result<(), AllocError>
    requires { IsOccupied cache.old.slots slot }
    ensures { IsReserved slot more result cache.old cache.new }
{
    cache.node(slot).reserve(more)
}

/// Reserves room for so many further keys in the leaf of this number, which a slot of the part in
/// hand has. That many may come into it then without memory.
///
/// After an error the leaf has the room that it had, or more, and its keys are as they were.
pub fn reserve<C, B>(hand: &mut Hand<C, B>, leaf: u32, more: u32) -> Result<(), AllocError>
    requires { (leaves : LeafHand) × (slot : ℕ) × (hand.old.leaves ≡ Some leaves)
        × HasLeaf leaves.cache.slots slot leaf }
    ensures { HasReserved leaf more result hand.old hand.new }
{
    let Some(mut leaves) = hand.leaves.take() else {
        unreachable!()
    };
    let Some(slot) = leaves.cache.find(leaf) else {
        unreachable!()
    };
    let done = reserve_in(&mut leaves.cache, slot, more);
    hand.leaves = Some(leaves);
    done
}
