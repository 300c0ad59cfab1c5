//! How a run begins over the backing device alone, and how it gives the device back.
ghost use Rattle.std.specs.Prelude.{◌≡◌, ◌+◌, ◌<◌, ◌≤◌, [], IfOk, IfErr, length};
ghost use Rattle.bc_disk.specs.Disk.{StandsFor};
ghost use Rattle.bc_disk.specs.Stands.{settled_model};
ghost use Rattle.bc_parts.specs.Machine.{IsRun};
ghost use Rattle.bc_book.specs.Pass.{events_in};
ghost use Rattle.bc_events.specs.Columns.{entries_of};
ghost use Rattle.bc_hand.specs.bc_machine.World.{IsBacking, opening};
ghost use Rattle.bc_hand.specs.Seats.{core, world, Works, empty};
ghost use Rattle.bc_deed.specs.Begun.{HasBegun, HasBacking, HasJoined, part_count};

use bc_book::book::Book;
use bc_book::pass::Pass;
use bc_disk::disk::Disk;
use bc_flight::flight::Flight;
use bc_hand::bc_machine::machine::{CoreParts, CoreSeat};
use bc_hand::bc_machine::part::{BackingPart, CorePart};
use bc_parts::not_made::NotMade;
use bc_parts::parts::Parts;
use std::alloc::Global;

/// How many numbers the seats of a run have together.
pub const SEATS: u32 = 320;

/// What a run leaves: its device, and what it did.
#[derive(Drop)]
pub struct Ended<B> {
    pub backing: BackingPart<B>,
    pub pass: Pass,
}

// The backing device among the parts of a run.
fn backing_in<C: Drop, B: Drop>(parts: Vec<CorePart<C, B>>) -> BackingPart<B>
    requires { (backing : _) × HasBacking parts.items backing }
    ensures { HasBacking parts.items result }
{
    let mut parts = parts;
    let Some(CorePart::Backing(backing)) = parts.pop() else {
        unreachable!()
    };
    backing
}

/// Begins a run over a device of which a crash would leave exactly what it holds now. The seat has
/// all numbers. `Err` comes from want of memory alone, and hands the device back as it was.
pub fn begin<C: Disk + Drop, B: Disk + Drop>(
    alloc: Global,
    backing: BackingPart<B>,
) -> Result<(CoreParts<C, B>, CoreSeat<C, B>), BackingPart<B>>
    requires backing { StandsFor (B.facts backing.disk) (settled_model (B.facts backing.disk)) }
    requires inside { backing.offset + backing.size ≤ (B.facts backing.disk).sectors }
    ensures ok { IfOk result (λ r. HasBegun C.facts B.facts backing r.0 r.1) }
    ensures err { IfErr result (λ device. device ≡ backing) }
{
    let Ok(flight) = Flight::new(alloc, SEATS) else {
        return Err(backing);
    };
    let Ok(mut parts) = Vec::with_capacity(alloc, 6) else {
        return Err(backing);
    };
    parts.push_reserved(CorePart::Absent);
    parts.push_reserved(CorePart::Flight(flight));
    parts.push_reserved(CorePart::Absent);
    parts.push_reserved(CorePart::Absent);
    parts.push_reserved(CorePart::Absent);
    parts.push_reserved(CorePart::Backing(backing));
    match Parts::new(alloc, parts, Book::new(alloc), SEATS) {
        Ok(run) => Ok(run),
        Err(NotMade { parts, book: _ }) => Err(backing_in(parts)),
    }
}

/// Gives the seat's numbers from `at` on to a new seat, before anything has happened.
pub fn split<C: Disk, B: Disk>(
    parts: &CoreParts<C, B>,
    seat: &mut CoreSeat<C, B>,
    at: u32,
) -> CoreSeat<C, B>
    requires works { Works C.facts B.facts parts.now seat.old empty }
    requires begins { seat.old.seen ≡ [] }
    requires at { (seat.old.first < at) × (at < seat.old.end) }
    ensures kept { seat.new ≡ record seat.old { end = at } }
    ensures new { result ≡ record seat.old { first = at; parts = []; promises = 0 } }
    ensures works { Works C.facts B.facts parts.now seat.new empty }
    ensures other { Works C.facts B.facts parts.now result empty }
{
    parts.split(seat, at)
}

/// Takes in another seat, whose numbers are the next ones and which holds nothing.
pub fn join<C: Disk, B: Disk>(
    parts: &CoreParts<C, B>,
    seat: &mut CoreSeat<C, B>,
    other: CoreSeat<C, B>,
)
    requires works { Works C.facts B.facts parts.now seat.old empty }
    requires other { Works C.facts B.facts parts.now other empty }
    requires next { other.first ≡ seat.old.end }
    ensures works { Works C.facts B.facts parts.now seat.new empty }
    ensures joined { HasJoined C.facts B.facts seat.old other seat.new }
{
    parts.join(seat, other);
}

/// Ends a run of which the seat has every number, so that no other seat is left. It takes no memory.
pub fn end<C: Disk + Drop, B: Disk + Drop>(parts: CoreParts<C, B>, seat: CoreSeat<C, B>) -> Ended<B>
    requires run { seat.run ≡ parts.run }
    requires all { (seat.first ≡ 0) × (seat.end ≡ parts.seats) }
    requires idle { seat.parts ≡ [] }
    requires count { length parts.run.start ≡ part_count }
    ensures run { IsRun (core C.facts B.facts) (opening C.facts B.facts parts.run.start) seat.seen }
    ensures backing { IsBacking C.facts B.facts result.backing (world C.facts B.facts seat) }
    ensures events { events_in result.pass ≡ seat.seen }
    ensures history { result.pass.entries.items ≡ entries_of seat.seen }
{
    let (parts, book) = parts.close(seat);
    Ended {
        backing: backing_in(parts),
        pass: book.into_pass(),
    }
}
