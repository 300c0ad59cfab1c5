//! Calls of a run's parts, as a seat sees them.
ghost use Rattle.std.specs.Prelude.{◌≡◌, ◌+◌, ◌<◌, ℕ, true, false, [], ◌∷◌, ◌++◌, length};
ghost use Rattle.std.specs.Prelude.{Ok, Err, IfErr, OnOk, OnErr};
ghost use Rattle.bc_parts.specs.Seat.{Holds, without};
ghost use Rattle.bc_seats.specs.Seats.{state_seen, IsSeat, Since, Waited, Committed, Kept, Went};

use bc_parts::machine::Machine;
use bc_parts::parts::Parts;
use bc_parts::seat::Seat;
use std::alloc::AllocError;
use std::sync::Wait;

/// Waits until no seat holds the part, and takes it. It stands for the state that the seat has seen
/// then.
pub fn take<M: Machine, R: Wait>(rt: &R, parts: &Parts<M>, seat: &mut Seat<M>, part: u32) -> M::Part
    requires run { seat.old.run ≡ parts.now.run }
    requires seat { IsSeat M.Machine seat.old }
    requires part { part < length parts.now.run.start }
    requires free { Holds seat.old.parts part → ⊥ }
    ensures seat { IsSeat M.Machine seat.new }
    ensures parts { seat.new.parts ≡ part ∷ seat.old.parts }
    ensures waited { Waited M.Machine seat.old seat.new }
    ensures heard { seat.new.heard ≡ seat.old.heard }
    ensures value { M.stands part result (state_seen M.Machine seat.new) }
{
    parts.take(rt, seat, part)
}

/// Gives a part back, which has to stand for the state that the seat has seen. Nobody else learns of
/// it, and nothing happens meanwhile.
pub fn give<M: Machine>(parts: &Parts<M>, seat: &mut Seat<M>, part: u32, value: M::Part)
    requires run { seat.old.run ≡ parts.now.run }
    requires seat { IsSeat M.Machine seat.old }
    requires holds { Holds seat.old.parts part }
    requires value { M.stands part value (state_seen M.Machine seat.old) }
    ensures seat { IsSeat M.Machine seat.new }
    ensures parts { seat.new.parts ≡ without part seat.old.parts }
    ensures waited { Waited M.Machine seat.old seat.new }
    ensures seen { seat.new.seen ≡ seat.old.seen }
    ensures heard { seat.new.heard ≡ seat.old.heard }
{
    parts.give(seat, part, value);
}

/// Looks how many events there are. The seat has then seen all of them.
pub fn meet<M: Machine>(parts: &Parts<M>, seat: &mut Seat<M>) -> u64
    requires run { seat.old.run ≡ parts.now.run }
    requires seat { IsSeat M.Machine seat.old }
    ensures kept { Kept M.Machine seat.old seat.new (λ _. false) }
    ensures waited { Waited M.Machine seat.old seat.new }
    ensures count { result ≡ length seat.new.seen }
{
    parts.meet(seat)
}

/// Makes room for so many events of the seat. At `Err` there was no memory, and it has the promises
/// that it had.
pub fn promise<M: Machine, R: Wait>(
    rt: &R,
    parts: &Parts<M>,
    seat: &mut Seat<M>,
    events: u32,
) -> Result<(), AllocError>
    requires run { seat.old.run ≡ parts.now.run }
    requires seat { IsSeat M.Machine seat.old }
    ensures kept { Kept M.Machine seat.old seat.new (λ _. false) }
    ensures went { Went M.Machine seat.old [] seat.new }
    ensures since { Since M.Machine seat.old (state_seen M.Machine seat.new) }
    ensures heard { seat.new.heard ≡ seat.old.heard }
    ensures ok { OnOk result (seat.new.promises ≡ seat.old.promises + events) }
    ensures err { OnErr result (seat.new.promises ≡ seat.old.promises) }
{
    match parts.promise(rt, seat, events) {
        Ok(()) => Ok(()),
        Err(error) => Err(error),
    }
}

/// Commits the event, which is enabled in each state to which others can have led and in which the
/// Book admits it. What the seat holds stands still, but for the parts that the event changes.
///
/// `Err` has the stop for which the Book does not admit it; then the seat has only waited.
pub fn commit<M: Machine, R: Wait>(
    rt: &R,
    parts: &Parts<M>,
    seat: &mut Seat<M>,
    event: M::Event,
) -> Result<(), M::Stop>
    requires run { seat.old.run ≡ parts.now.run }
    requires seat { IsSeat M.Machine seat.old }
    requires promise { 0 < seat.old.promises }
    requires number { M.number event ≡ seat.old.first }
    requires holds { (k : ℕ) → M.changes (length seat.old.run.start) event k ≡ true
        → Holds seat.old.parts k }
    requires enabled { (x : M.State) (since : Since M.Machine seat.old x)
        → M.verdict (seat.old.seen ++ since.others) event ≡ Ok tt → M.enabled x event }
    ensures kept { Kept M.Machine seat.old seat.new (M.changes (length seat.old.run.start) event) }
    ensures ok { OnOk result (Committed M.Machine seat.old event seat.new) }
    ensures err { OnErr result (Waited M.Machine seat.old seat.new) }
    ensures stop { IfErr result (λ stop. M.verdict seat.new.seen event ≡ Err stop) }
{
    match parts.commit(rt, seat, event) {
        Ok(_) => Ok(()),
        Err(stop) => Err(stop),
    }
}
