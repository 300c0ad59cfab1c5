//! What a seat has at hand from one piece of its requests to the next.
ghost use Rattle.std.specs.Prelude.{◌≡◌, ◌+◌, ◌≤◌, [], OnOk};
ghost use Rattle.bc_deed.specs.Flushed.{HasDone};
ghost use Rattle.bc_deed.specs.bc_hand.Seats.{empty};
ghost use Rattle.bc_job.specs.Asked.{IsReady};

use bc_deed::bc_hand::hand::Hand;
use bc_deed::bc_machine::machine::{CoreParts, CoreSeat};
use bc_deed::promise::promise;
use bc_disk::disk::Disk;
use std::alloc::AllocError;
use std::sync::Wait;

/// For how many deeds a seat asks for room at once.
const AHEAD: u32 = 256;

/// A hand, in which no part lies between two pieces, and for how many deeds the seat has room
/// ahead: it waits for the Book once for many pieces.
#[derive(Drop)]
pub struct Stock<C, B> {
    pub hand: Hand<C, B>,
    pub room: u32,
}

impl<C: Disk + Drop, B: Disk + Drop> Stock<C, B> {
    /// No part, and no room ahead.
    pub fn empty() -> Stock<C, B>
        ensures hand { result.hand ≡ empty }
        ensures room { result.room ≡ 0 }
    {
        Stock {
            hand: Hand::empty(),
            room: 0,
        }
    }
}

/// Takes room for so many deeds out of the stock, which the seat fills first where it has less. At
/// `Err` there was no memory to fill it.
pub(crate) fn take_room<C: Disk + Drop, B: Disk + Drop, R: Wait>(
    rt: &R,
    parts: &CoreParts<C, B>,
    seat: &mut CoreSeat<C, B>,
    stock: &mut Stock<C, B>,
    deeds: u32,
) -> Result<(), AllocError>
    requires ready { IsReady C.facts B.facts parts.now seat.old stock.old }
    requires few { deeds ≤ AHEAD }
    ensures ready { IsReady C.facts B.facts parts.now seat.new stock.new }
    ensures done { HasDone C.facts B.facts [] seat.old seat.new }
    ensures ok { OnOk result (stock.new.room + deeds ≤ seat.new.promises) }
{
    if stock.room >= deeds {
        stock.room -= deeds;
        return Ok(());
    }
    let Ok(()) = promise(rt, parts, seat, &mut stock.hand, AHEAD) else {
        return Err(AllocError);
    };
    stock.room += AHEAD - deeds;
    Ok(())
}
