//! Where buckets go that are ready to be taken again, before they go there.
ghost use Rattle.std.specs.Prelude.{◌≡◌, ◌≤◌, ℕ, List, [], length, take, vec_capacity};
ghost use Rattle.bc_alloc.specs.Reserve.{Reserve, free};
ghost use Rattle.bc_alloc.specs.Reserves.{IsInOrder, list_of, returned_all, stored};
ghost use Rattle.bc_raise.specs.bc_renew.Goes.{given_back, goes_to, listings};
ghost use Rattle.bc_ready.specs.Free.{AreFree};

use bc_alloc::{Purpose, Reserves};
use bc_events::event::Listing;
use bc_raise::bc_machine::part::BucketsPart;

// How many more buckets each list may have.
#[derive(Drop)]
pub(crate) struct Free {
    priorities: u32,
    moving: u32,
    tree: u32,
    plain: u32,
}

/// Which ones of the chain in hand go back to the list priorities: the first ones, as far as that
/// has room. Takes no memory.
pub(crate) fn back_in(part: &BucketsPart, before: u32, back: &mut Vec<u32>)
    requires none { back.old.items ≡ [] }
    requires room { length part.now.chain.items ≤ vec_capacity back.old }
    ensures { back.new.items ≡ given_back before part.now.chain.items part.now.reserves.lists }
{
    list_back(&part.reserves, before, &part.chain, back);
}

/// The list of each of the first raised buckets, once the chain in hand is back on the list
/// priorities. Takes no memory.
pub(crate) fn listed_in(part: &BucketsPart, before: u32, named: u32, listed: &mut Vec<Listing>)
    requires none { listed.old.items ≡ [] }
    requires named { named ≤ length part.now.reserves.raised }
    requires room { named ≤ vec_capacity listed.old }
    ensures { listed.new.items ≡ listings before (take named part.now.reserves.raised)
        (returned_all part.now.chain.items part.now.reserves.lists) }
{
    list_named(&part.reserves, before, named, &part.chain, listed);
}

// The first ones of these, as far as the list priorities has room.
fn list_back(reserves: &Reserves, before: u32, old: &[u32], back: &mut Vec<u32>)
    requires none { back.old.items ≡ [] }
    requires room { length old.now ≤ vec_capacity back.old }
    ensures { back.new.items ≡ given_back before old.now reserves.now.lists }
{
    let room = room_of(reserves, Purpose::Priorities) as usize;
    let count = old.len().min(room);
    for i in 0..count {
        back.push_reserved(old[i].saturating_sub(before));
    }
}

// The list of each of the first raised buckets, once these are back on the list priorities.
fn list_named(reserves: &Reserves, before: u32, named: u32, old: &[u32], listed: &mut Vec<Listing>)
    requires none { listed.old.items ≡ [] }
    requires named { named ≤ length reserves.now.raised }
    requires room { named ≤ vec_capacity listed.old }
    ensures { listed.new.items ≡ listings before (take named reserves.now.raised)
        (returned_all old.now reserves.now.lists) }
{
    let mut free = free_behind(reserves, old);
    for place in 0..named {
        let list = next_list(&mut free);
        let bucket = reserves.raised(place).saturating_sub(before);
        listed.push_reserved(Listing { bucket, list });
    }
}

// How many more buckets this list may have.
fn room_of(reserves: &Reserves, purpose: Purpose) -> u32
    ensures free { result ≡ free (list_of purpose reserves.now) }
    ensures in_order { IsInOrder reserves.now }
{
    reserves.room(purpose).saturating_sub(reserves.len(purpose))
}

// The same of each, once these are back on the list priorities.
fn free_behind(reserves: &Reserves, old: &[u32]) -> Free
    ensures { AreFree result (returned_all old.now reserves.now.lists) }
{
    let first = room_of(reserves, Purpose::Priorities) as usize;
    Free {
        priorities: first.saturating_sub(old.len()) as u32,
        moving: room_of(reserves, Purpose::Moving),
        tree: room_of(reserves, Purpose::Tree),
        plain: room_of(reserves, Purpose::Plain),
    }
}

// The list to which the next bucket goes.
fn next_list(free: &mut Free) -> Option<Purpose>
    ensures { (ls : List Reserve) (k : ℕ) → AreFree free.old ls
        → (result ≡ goes_to ls) × AreFree free.new (stored k ls) }
{
    if free.priorities > 0 {
        free.priorities -= 1;
        return Some(Purpose::Priorities);
    }
    if free.moving > 0 {
        free.moving -= 1;
        return Some(Purpose::Moving);
    }
    if free.tree > 0 {
        free.tree -= 1;
        return Some(Purpose::Tree);
    }
    if free.plain > 0 {
        free.plain -= 1;
        return Some(Purpose::Plain);
    }
    None
}
