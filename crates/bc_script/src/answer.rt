//! What a line of a trace is answered.
ghost use Rattle.std.specs.Prelude.{◌≡◌, MatchBool};
ghost use Rattle.bc_script.specs.declared.answer.Answer.TheVariants.{Silent};

use bc_disk::disk::Device;
use bc_model::values::Values;

/// What a bucket was asked for.
#[derive(Clone, Copy, Debug, PartialEq, Eq, Drop)]
pub enum Asked {
    /// For nodes of the index.
    Tree,
    /// For data that is moved.
    Moving,
}

/// Why a line is refused.
#[derive(Clone, Copy, Debug, PartialEq, Eq, Drop)]
pub enum Refusal {
    /// Its last sector isn't below the size of the backing device.
    OutOfRange,
    /// No bucket could be had. So many lie on the list of those without a use, and on the list of
    /// those that are kept for this purpose.
    NoBucket {
        purpose: Asked,
        none_len: u32,
        own_len: u32,
    },
    /// This device failed.
    Fault(Device),
    /// The run was halted before, by a failed write or barrier of this device.
    Halted(Device),
    /// Memory ran out.
    Memory,
    /// The journal has no number or no room left.
    JournalEnd,
    /// The node that stands in this bucket is refused for the reason of this number.
    Node {
        bucket: u32,
        why: u8,
    },
}

/// What a line is answered.
#[derive(Drop)]
pub enum Answer {
    /// Nothing: the line asked for nothing.
    Silent,
    /// A write, a flush or a round is done.
    Done,
    /// What the sectors from `first` on hold, counted from the data offset.
    Runs { first: u64, values: Values },
    /// The line was refused.
    Refused(Refusal),
}

impl Answer {
    /// Whether nothing is printed for it.
    pub fn is_silent(&self) -> bool
        ensures { MatchBool result (self.now ≡ Silent) (self.now ≡ Silent → ⊥) }
    {
        matches!(self, Answer::Silent)
    }
}
