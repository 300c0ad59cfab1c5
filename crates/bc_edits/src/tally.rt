//! What was said of pairs, counted.
ghost use Rattle.std.specs.Prelude.{◌<◌};

use bc_check::{CheckError, Verdict};
use bc_disk::disk::Device;
use bc_plain_pair::first::Said;
use bc_replay::OpenError;
use bc_super::error::SuperError;
use std::alloc::Global;

/// The names of what is said of a pair.
pub const NAMES: [&str; 18] = [
    "pass-through",
    "sound",
    "superblock backing",
    "superblock cache",
    "not set up",
    "other set",
    "no entry",
    "journal gap",
    "journal end",
    "generations",
    "uuids",
    "node",
    "pointer",
    "two uses",
    "no spare",
    "stray entry",
    "age",
    "agree",
];

// The place of the name.
fn place(said: Said) -> usize
    ensures { result < 18 }
{
    match said {
        Said::PassThrough => 0,
        Said::Sound { .. } => 1,
        Said::Backing => 2,
        Said::Cache => 3,
        Said::NotSetUp => 4,
        Said::OtherSet => 5,
        Said::NoEntry => 6,
        Said::Gap => 7,
        Said::Room => 8,
        Said::Generations => 9,
        Said::Table => 10,
        Said::Node { .. } => 11,
        Said::Pointer => 12,
        Said::TwoUses { .. } => 13,
        Said::Spare { .. } => 14,
        Said::Stray { .. } => 15,
        Said::Age { .. } => 16,
        Said::Agree { .. } => 17,
    }
}

/// A pair of which the two programs said something different.
#[derive(Clone, Copy, Debug, PartialEq, Eq, Drop)]
pub struct Difference {
    /// Its number, by which it is made again.
    pub number: u64,
    /// What the slow program says of it.
    pub plain: Said,
    /// Whether all parts of soundness hold, by the slow programs of the parts.
    pub sound: bool,
    /// What the check says; none where a device failed or memory ran out.
    pub checked: Option<Said>,
}

/// How often each was said, by the places of the names, and of which pairs the programs said
/// something different.
#[derive(Drop)]
pub struct Tally {
    pub counts: [u64; 18],
    pub differing: Vec<Difference>,
}

impl Tally {
    /// None was judged.
    pub fn new(alloc: Global) -> Tally {
        Tally {
            counts: [0; 18],
            differing: Vec::new(alloc),
        }
    }

    /// Counts what was said of one more pair.
    pub fn count(&mut self, said: Said) {
        let place = place(said);
        self.counts[place] = self.counts[place].saturating_add(1);
    }
}

// A refusal of the check in the slow program's terms; none where a device failed or memory ran out.
fn refusal(why: OpenError) -> Option<Said> {
    Some(match why {
        OpenError::Super {
            why: SuperError::NotInitialised,
            ..
        } => Said::NotSetUp,
        OpenError::Super {
            why: SuperError::OtherSet,
            ..
        } => Said::OtherSet,
        OpenError::Super {
            device: Device::Backing,
            ..
        } => Said::Backing,
        OpenError::Super {
            device: Device::Cache,
            ..
        } => Said::Cache,
        OpenError::NoJournal => Said::NoEntry,
        OpenError::JournalGap { .. } => Said::Gap,
        OpenError::JournalEnd { .. } => Said::Room,
        OpenError::Prio(_) => Said::Generations,
        OpenError::Uuid => Said::Table,
        OpenError::Node { bucket, .. } => Said::Node {
            bucket: u64::from(bucket),
        },
        OpenError::PointerRange { .. } => Said::Pointer,
        OpenError::TwoUses { bucket } => Said::TwoUses {
            bucket: u64::from(bucket),
        },
        OpenError::NoSpare { found } => Said::Spare { found },
        OpenError::Fault(_) | OpenError::Memory => return None,
    })
}

/// What the check says of a pair, in the slow program's terms; none where a device failed or memory
/// ran out.
pub fn said_by(checked: Result<Verdict, CheckError>) -> Option<Said> {
    match checked {
        Ok(Verdict::PassThrough) => Some(Said::PassThrough),
        Ok(Verdict::Sound { dirty, clean }) => Some(Said::Sound { dirty, clean }),
        Ok(Verdict::Journal { bucket }) => Some(Said::Stray { bucket }),
        Ok(Verdict::Age { sector }) => Some(Said::Age { sector }),
        Ok(Verdict::Agree { sector }) => Some(Said::Agree { sector }),
        Err(CheckError::Open(why)) => refusal(why),
        Err(CheckError::Fault(_) | CheckError::Memory) => None,
    }
}
