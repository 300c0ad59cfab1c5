//! The keys of entries, leaf by leaf.
ghost use Rattle.std.specs.Prelude.{◌≡◌, List, [], length, replicate, IfOk};
ghost use Rattle.bc_pending.specs.Entries.{keys_in, keys_of};
ghost use Rattle.bc_pending.specs.Pieces.{AreInRow, ArePending, GoOn};

use crate::numbered::{Numbered, Pending};
use crate::share::give_all;
use bc_entries::Journal;
use bc_jset::JEntry;
use bc_record::Placed;
use bc_spine::LeafRange;
use std::alloc::{AllocError, Global};

/// So many lists without keys.
fn empty_lists(alloc: Global, count: usize) -> Result<Vec<Pending>, AllocError>
    ensures { IfOk result (λ lists. lists.items ≡ replicate count []) }
{
    let mut lists = Vec::new(alloc);
    for _ in 0..count {
        lists.push(Pending::new(alloc))?;
    }
    Ok(lists)
}

/// Gives each leaf its pieces of an entry's keys.
fn give_entry(
    lists: &mut [Pending],
    leaves: &[LeafRange],
    entry: &Placed<JEntry>,
) -> Result<(), AllocError>
    requires row { AreInRow leaves.now }
    requires each { length lists.old ≡ length leaves.now }
    ensures { IfOk result (λ _. GoOn leaves.now (keys_of entry.now) lists.old lists.new) }
{
    let keys = entry.item.keys.as_slice();
    for key in keys {
        let numbered = Numbered {
            key: *key,
            entry: entry.item.seq,
        };
        give_all(lists, leaves, &numbered)?;
    }
    Ok(())
}

/// Gives each leaf its pieces of the keys of the entries that count, the oldest first.
fn give_entries(
    lists: &mut [Pending],
    leaves: &[LeafRange],
    journal: &Journal,
) -> Result<(), AllocError>
    requires row { AreInRow leaves.now }
    requires each { length lists.old ≡ length leaves.now }
    ensures { IfOk result (λ _. GoOn leaves.now (keys_in journal.now.entries) lists.old lists.new) }
{
    for i in 0..journal.len() {
        give_entry(lists, leaves, journal.entry(i))?;
    }
    Ok(())
}

/// For each leaf the keys of the entries that count, the oldest first, each with its entry's number
/// and cut to the leaf's range; those that have no sector there are left out. The time is linear in
/// the number of keys and of their pieces, but for a logarithm.
pub fn pending_of(
    alloc: Global,
    leaves: &[LeafRange],
    journal: &Journal,
) -> Result<Vec<Pending>, AllocError>
    requires { AreInRow leaves.now }
    ensures { IfOk result
        (λ lists. ArePending leaves.now (keys_in journal.now.entries) lists.items) }
{
    let mut lists = empty_lists(alloc, leaves.len())?;
    give_entries(&mut lists, leaves, journal)?;
    Ok(lists)
}
