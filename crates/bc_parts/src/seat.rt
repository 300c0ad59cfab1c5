//! A seat, with which a thread takes parts and commits events.
ghost use Rattle.std.specs.Prelude.{◌≡◌, ◌<◌, Some};
ghost use Rattle.std.specs.Option.{ForSome};

use crate::machine::Machine;
use crate::table::Place;
use std::marker::Model;

/// What a thread steps with. It has some of the run's numbers, which are contiguous, and commits
/// under the first.
///
/// A clause sees its numbers, the list of events that it has seen, the parts that it holds, for how
/// many events it has a promise, and the stop that it was told of.
#[derive(Drop)]
pub struct Seat<M: Machine> {
    pub(crate) place: Place<M>,
    pub(crate) first: u32,
    pub(crate) heard: Option<M::Stop>,
}

impl<M: Machine> Model for Seat<M> {
    ghost use Rattle.std.specs.Prelude.{◌≡◌, Some};
    ghost use Rattle.std.specs.Option.{ForSome};
    ghost use Rattle.bc_parts.specs.Seat.{SeatView, coded_seat};
    ghost use Rattle.bc_parts.specs.Steps.{Rests};

    ghost Value = { SeatView M.Part M.Event M.Stop };

    ghost coded = { coded_seat M.Part.code M.Event.code M.Stop.code };

    ghost view = { λ s. record {
      run = record { table = s.place.table_id; start = s.place.me.0.start };
      first = s.place.me.0.first;
      end = s.place.me.0.end;
      seen = s.place.me.0.seen;
      parts = s.place.me.0.held;
      promises = s.place.me.0.promises;
      heard = s.heard;
    } };

    ghost invariant = { λ s. Rests M.Machine s.place.me
        × (s.first ≡ s.place.me.0.first)
        × ForSome s.heard (λ t. M.stop s.place.me.0.seen ≡ Some t) };
}

impl<M: Machine> Seat<M> {
    /// The first of the seat's numbers, which its events carry.
    pub fn number(&self) -> u32
        ensures first { result ≡ self.now.first }
        ensures mine { self.now.first < self.now.end }
    {
        self.first
    }

    /// The stop that a commit of this seat answered, or of one that was joined to it, or `None`. It
    /// is the one that the events made which the seat has seen.
    pub fn heard(&self) -> Option<M::Stop>
        ensures heard { result ≡ self.now.heard }
        ensures stopped { ForSome result (λ s. M.stop self.now.seen ≡ Some s) }
    {
        self.heard
    }
}
