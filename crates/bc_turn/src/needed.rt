//! The oldest entry that is needed.
ghost use Rattle.std.specs.Prelude.{◌≡◌, Some};
ghost use Rattle.bc_journal.specs.Journal.{Journal};
ghost use Rattle.bc_turn.specs.Needed.{HasNeedFrom};

use bc_append::bc_hand::hand::Hand;
use bc_journal::Journal;

// In the journal.
fn need_in(journal: &mut Journal, low: u64)
    ensures { HasNeedFrom low journal.old journal.new }
{
    if journal.needed() < low && low <= journal.number() {
        journal.reclaim_to(low);
    }
}

/// Notes in the journal in hand that no entry below `low` is needed. The next entry that is sealed
/// says so, and once it is durable the journal buckets with older entries alone are free. Where no
/// leaf waits for a key of an older entry, the journal goes on to stand for the run's.
///
/// A journal that needs none of these already is left as it is; and so is one that has no entry
/// `low` to come, which no sound pair has.
pub fn need_from<C, B>(hand: &mut Hand<C, B>, low: u64)
    requires { (j : Journal) × (hand.old.journal ≡ Some j) }
    ensures { (j k : Journal) × (hand.old.journal ≡ Some j) × HasNeedFrom low j k
        × (hand.new ≡ record hand.old { journal = Some k }) }
{
    let Some(mut journal) = hand.journal.take() else {
        unreachable!()
    };
    need_in(journal.get_mut(), low);
    hand.journal = Some(journal);
}
