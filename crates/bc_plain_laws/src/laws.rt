//! What holds of every run over the backing device alone: each law is the contract of a function.
ghost use Rattle.bc_plain_laws.specs.Example.{LawRuns, LawTeeth};
ghost use Rattle.bc_plain_laws.specs.Laws.{LawHistory, LawLegal, LawSurvives, LawStable};
ghost use Rattle.bc_plain_laws.specs.Laws.{LawOutside, LawPromises};

use bc_disk::disk::Disk;

/// The state's history is that of the events, by workers, and it is halted where they tell of a
/// halt.
pub fn law_history<C: Disk, B: Disk>()
    ensures { LawHistory C.facts B.facts }
{}

/// Each answer's values are those of the last writes before it.
pub fn law_legal<C: Disk, B: Disk>()
    ensures { LawLegal C.facts B.facts }
{}

/// What a crash would leave of the device shows of each sector an allowed value.
pub fn law_survives<C: Disk, B: Disk>()
    ensures { LawSurvives C.facts B.facts }
{}

/// Behind a good last barrier it shows what was written last, where nothing halted the run.
pub fn law_stable<C: Disk, B: Disk>()
    ensures { LawStable C.facts B.facts }
{}

/// Outside of the data the device is as it was.
pub fn law_outside<C: Disk, B: Disk>()
    ensures { LawOutside C.facts B.facts }
{}

/// All of it, from what the beginning and the end of a run say.
pub fn law_promises<C: Disk, B: Disk>()
    ensures { LawPromises C.facts B.facts }
{}

/// The premises are met: by a run that does nothing, and by a write with a barrier behind it.
pub fn law_runs()
    ensures { LawRuns }
{}

/// Without the barrier the write may be undone; and where a cache device tells nothing, not even
/// answers have to be right.
pub fn law_teeth()
    ensures { LawTeeth }
{}
