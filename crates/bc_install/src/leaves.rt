//! What an install makes of the leaves in memory.
ghost use Rattle.std.specs.Prelude.{◌≡◌, ◌+◌, ◌<◌, ◌∷◌, ◌≤◌, [], ℕ, length, slice_get, MatchOption, None, Some};
ghost use Rattle.bc_cache.specs.Slots.{IsOccupied};
ghost use Rattle.bc_change.specs.Goes.{numbers};
ghost use Rattle.bc_install.specs.Installed.{AreBroughtIn, AreTakenOut, IsBroughtIn, IsLetGoIn};
ghost use Rattle.bc_spine.specs.Exchange.{going};
ghost use Rattle.bc_tree.specs.declared.plan.Plan.{Plan};

use bc_cache::NodeCache;
use bc_node::Leaf;
use bc_spine::Exchange;
use bc_tree::{NewLeaves, Spine};

// Nobody holds the leaf in this slot any more.
fn let_go_in(cache: &mut NodeCache, slot: u32)
    requires { IsOccupied cache.old.slots slot }
    ensures { IsLetGoIn slot cache.old cache.new }
{
    let Some(held) = cache.held(slot) else {
        unreachable!()
    };
    if held {
        cache.let_go(slot);
    }
}

// The leaf of this number is in no slot any more, whoever held it.
fn take_out(cache: &mut NodeCache, number: u32)
    ensures { AreTakenOut (number ∷ []) cache.old cache.new }
{
    let Some(slot) = cache.find(number) else {
        return;
    };
    let_go_in(cache, slot);
    let _ = cache.take(slot);
}

/// Takes the leaves that go out of their slots, those that somebody holds too. A leaf that is in no
/// slot of this part is passed over.
pub fn take_going(cache: &mut NodeCache, spine: &Spine, e: &Exchange)
    requires { e.now.place + e.now.gone ≤ length spine.now.leaves }
    ensures { AreTakenOut (numbers (going spine.now.leaves e.now)) cache.old cache.new }
{
    let _ = spine.len();
    for i in 0..e.gone {
        take_out(cache, spine.leaf(e.place + i).number);
    }
}

// An empty slot.
fn empty_slot(cache: &NodeCache) -> Option<u32>
    ensures { MatchOption result ((slot : ℕ) → ¬ (slice_get cache.now.slots slot ≡ Some None))
        (λ slot. slice_get cache.now.slots slot ≡ Some None) }
{
    for slot in 0..cache.len() {
        if cache.held(slot).is_none() {
            return Some(slot);
        }
    }
    None
}

// Puts a new leaf into an empty slot, where the part has the leaves of its number and such a slot is
// there.
fn bring(cache: &mut NodeCache, count: u32, part: u32, number: u32, leaf: Leaf)
    requires { 0 < count }
    ensures { IsBroughtIn count part number leaf cache.old cache.new }
{
    if number % count != part {
        return;
    }
    if let Some(_) = cache.find(number) {
        return;
    }
    let Some(slot) = empty_slot(cache) else {
        return;
    };
    cache.put(slot, number, leaf);
}

/// Puts the leaves that came with a plan into empty slots, as far as the part has the leaves of
/// their numbers and such slots are there: so they needn't be read, and go on to take sets. Of so
/// many parts with leaves this is the one of that number.
pub fn bring_leaves(cache: &mut NodeCache, count: u32, part: u32, new: NewLeaves)
    requires { 0 < count }
    ensures { (plan : Plan) → new.leaves ≡ plan.leaves → new.first ≡ plan.first
        → new.second ≡ plan.second → AreBroughtIn count part plan cache.old cache.new }
{
    let NewLeaves {
        leaves,
        first,
        second,
    } = new;
    bring(cache, count, part, leaves.first.number, first);
    let Some(range) = leaves.second else {
        return;
    };
    let Some(leaf) = second else {
        return;
    };
    bring(cache, count, part, range.number, leaf);
}
