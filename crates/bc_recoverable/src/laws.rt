//! What holds of each run: each law is the contract of a function.
ghost use Rattle.bc_recoverable.specs.Closed.{LawEnded};
ghost use Rattle.bc_recoverable.specs.Made.{LawBringsNothing};
ghost use Rattle.bc_recoverable.specs.Runs.{LawRuns};

/// What a deed brings is well made where it brings neither keys nor an entry.
pub fn law_brings_nothing()
    ensures { LawBringsNothing }
{}

/// Whatever a crash leaves of a run on a sound pair is a sound pair, which shows of each sector
/// what the history allows.
pub fn law_runs()
    ensures { LawRuns }
{}

/// Where each insertion is durable, and the backing device is settled, a crash leaves a pair that
/// shows each sector's last write. Where no last key is dirty besides, the backing device has these
/// writes by itself.
pub fn law_ended()
    ensures { LawEnded }
{}
