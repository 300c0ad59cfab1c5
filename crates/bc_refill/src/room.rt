//! The memory of a refill.
ghost use Rattle.std.specs.Prelude.{◌≡◌, ◌<◌, length, IfOk};
ghost use Rattle.bc_disk.specs.Chain.{sets_in_chain};
ghost use Rattle.bc_refill.specs.Named.{IsNamingRoom};
ghost use Rattle.bc_refill.specs.Rooms.{IsRoomFor};
ghost use Rattle.bc_refill.specs.Sets.{AreRooms};

use bc_disk::chain::sets_in_chain;
use bc_disk::gens::Gens;
use bc_disk::geometry::Geometry;
use bc_events::event::Listing;
use bc_new_chain::bc_entry::room::EntryRoom;
use bc_new_chain::bc_held::held::HeldBucket;
use bc_new_chain::room::ChainRoom;
use std::alloc::{AllocError, Global};

// For the chain, its entry, and what is made ready behind it.
#[derive(Drop)]
pub(crate) struct NamingRoom {
    pub(crate) sets: Vec<Vec<u8>>,
    pub(crate) gens: Gens,
    pub(crate) chain: ChainRoom,
    pub(crate) entry: EntryRoom,
    pub(crate) back: Vec<u32>,
    pub(crate) listed: Vec<Listing>,
}

// For the buckets of the chain and the victims too. It is all taken before the first bucket is:
// from then on nothing but a fault or a halt is in the way.
#[derive(Drop)]
pub(crate) struct Room {
    pub(crate) taken: Vec<HeldBucket>,
    pub(crate) new: Vec<u32>,
    pub(crate) victims: Vec<u32>,
    pub(crate) naming: NamingRoom,
}

// Takes it, for so many buckets of the chain before, and for so many that may be raised then.
pub(crate) fn room_for(
    alloc: Global,
    g: &Geometry,
    chained: usize,
    raised: usize,
) -> Result<Room, AllocError>
    ensures { IfOk result (IsRoomFor g.now raised chained) }
{
    let many = sets_in_chain(g);
    let taken = Vec::with_capacity(alloc, many as usize)?;
    let new = Vec::with_capacity(alloc, many as usize)?;
    let victims = Vec::with_capacity(alloc, g.nbuckets as usize)?;
    let naming = naming_room(alloc, g, chained, raised)?;
    Ok(Room {
        taken,
        new,
        victims,
        naming,
    })
}

fn naming_room(
    alloc: Global,
    g: &Geometry,
    chained: usize,
    raised: usize,
) -> Result<NamingRoom, AllocError>
    ensures { IfOk result (IsNamingRoom g.now (sets_in_chain g.now) raised chained) }
{
    let many = sets_in_chain(g);
    let sets = set_rooms(alloc, g, many as usize)?;
    let gens = Gens::new(alloc, g)?;
    let chain = ChainRoom::new(alloc, many)?;
    let entry = EntryRoom::new(alloc)?;
    let back = Vec::with_capacity(alloc, chained)?;
    let listed = Vec::with_capacity(alloc, raised)?;
    Ok(NamingRoom {
        sets,
        gens,
        chain,
        entry,
        back,
        listed,
    })
}

// Room for the bytes of so many sets.
fn set_rooms(alloc: Global, g: &Geometry, count: usize) -> Result<Vec<Vec<u8>>, AllocError>
    ensures many { IfOk result (λ rooms. length rooms.items ≡ count) }
    ensures are { IfOk result (λ rooms. AreRooms g.now rooms.items) }
{
    let bytes = 512 * usize::from(g.bucket);
    let mut rooms = Vec::with_capacity(alloc, count)?;
    let mut done = 0usize;
    while done < count {
        let room = vec![in alloc; 0u8; bytes]?;
        rooms.push_reserved(room);
        done += 1;
    }
    Ok(rooms)
}
