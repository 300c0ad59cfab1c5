//! What a run over an opened pair leaves of it: each law is the contract of a function.
ghost use Rattle.bc_session_laws.specs.Finished.{LawEnded, LawFinished};
ghost use Rattle.bc_session_laws.specs.Laws.{LawClosed, LawKept, LawMade};

use bc_disk::disk::Disk;

/// The entry of an opening is well made, and so is all of a run that brings nothing more.
pub fn law_made<C: Disk, B: Disk>(_cache: &C, _backing: &B)
    ensures { LawMade C.facts B.facts }
{}

/// Each answer of a run over a sound pair is that of the last write before it. Wherever its devices
/// stop, within any write, they leave a sound pair, which shows of each sector what the run's
/// history allows.
pub fn law_kept<C: Disk, B: Disk>(_cache: &C, _backing: &B)
    ensures { LawKept C.facts B.facts }
{}

/// The same behind the closing of a run, whether it was closed as it should be or not.
pub fn law_closed<C: Disk, B: Disk>(_cache: &C, _backing: &B)
    ensures { LawClosed C.facts B.facts }
{}

/// The same behind the closing of a run in which keys came in.
pub fn law_finished<C: Disk, B: Disk>(_cache: &C, _backing: &B)
    ensures { LawFinished C.facts B.facts }
{}

/// Behind a good closing of a run of which no key waits, whatever a crash leaves shows each sector's
/// last write; and where no last key is dirty, the backing device has these writes by itself.
pub fn law_ended<C: Disk, B: Disk>(_cache: &C, _backing: &B)
    ensures { LawEnded C.facts B.facts }
{}
