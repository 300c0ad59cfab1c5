//! Whether an entry can come behind the newest one.
ghost use Rattle.std.specs.Prelude.{◌≡◌, ◌∷◌, ◌++◌, ◌<◌, [], List, length};
ghost use Rattle.std.specs.Bool.{MatchBool};
ghost use Rattle.bc_disk.specs.declared.geometry.Geometry.{Geometry};
ghost use Rattle.bc_enter.specs.Next.{IsOdd};
ghost use Rattle.bc_entries.specs.Lists.{IsFit};
ghost use Rattle.bc_jset.specs.Entries.{FoundEntry};
ghost use Rattle.bc_jset.specs.EntryBytes.{IsLevel};
ghost use Rattle.bc_open.specs.Open.{IsNewestNumber};

use bc_entries::Journal as Entries;
use bc_jset::JEntry;
use bc_record::Placed;

// The last of the entries that count.
fn last_entry(read: &Entries) -> &Placed<JEntry>
    requires { 0 < length read.now.entries }
    ensures { (older : List FoundEntry) × (read.now.entries ≡ older ++ result.now ∷ []) }
{
    let count = read.len();
    read.entry(count - 1)
}

// Whether an entry tells of a root that may have nodes below it: of level 1 or 2.
fn has_level(e: &JEntry) -> bool
    ensures { MatchBool result (IsLevel e.now.level) (¬ (IsLevel e.now.level)) }
{
    e.level == 1 || e.level == 2
}

/// Whether the newest entry tells no level of a root, or still needs an entry of number 0.
pub fn is_odd(read: &Entries) -> bool
    requires { (g : Geometry) × IsFit g read.now.all read.now.entries }
    ensures { MatchBool result (IsOdd read.now) (¬ (IsOdd read.now)) }
{
    let newest = last_entry(read);
    if !has_level(&newest.item) {
        return true;
    }
    if newest.item.last_seq == 0 {
        return true;
    }
    false
}

/// The number of the newest entry.
pub fn newest_number(read: &Entries) -> u64
    requires { (g : Geometry) × IsFit g read.now.all read.now.entries }
    ensures { IsNewestNumber read.now result }
{
    last_entry(read).item.seq
}
