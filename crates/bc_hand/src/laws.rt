//! What a seat knows goes on: each law is the contract of a function.
ghost use Rattle.std.specs.Prelude.{◌≡◌, ◌<◌, None, Some, length};
ghost use Rattle.bc_parts.specs.Seat.{PartsView, newcomer};
ghost use Rattle.bc_machine.specs.declared.part.CorePart.{CorePart};
ghost use Rattle.bc_machine.specs.Note.{note_after, IsFirmer};
ghost use Rattle.bc_events.specs.declared.event.Deed.{Deed};
ghost use Rattle.bc_hand.specs.Seats.{View, IsCoreSeat, Did, note, world};

use bc_disk::disk::Disk;

/// The first seat of a run, which has all 320 numbers, may take steps.
pub fn law_newcomer<C: Disk, B: Disk>()
    ensures { (parts : PartsView (CorePart C B)) → parts.seats ≡ 320 → 5 < length parts.run.start
        → IsCoreSeat C.facts B.facts (newcomer parts) }
{}

/// A deed makes of its seat's note what the table says, and others only make firm what it wrote.
pub fn law_notes<C: Disk, B: Disk>()
    ensures did { (v w : View C.facts B.facts) (d : Deed) → IsCoreSeat C.facts B.facts v
        → Did C.facts B.facts (Some d) v w
        → IsFirmer (note_after (world C.facts B.facts v).opening.machine.flow.plain
        (note C.facts B.facts v) d) (note C.facts B.facts w) }
    ensures waited { (v w : View C.facts B.facts) → IsCoreSeat C.facts B.facts v
        → Did C.facts B.facts None v w → IsFirmer (note C.facts B.facts v) (note C.facts B.facts w) }
{}
