//! What an entry is sealed with, by the journal in hand. A step that seals an entry of another root
//! or another chain commits its own deed, and does the rest by these.
ghost use Rattle.std.specs.Prelude.{◌≡◌, ◌++◌, None, Some, IfOk, IfSome, OnOk};
ghost use Rattle.bc_entry.specs.Seal.{CanSeal, IsNext, begun_by, rest_of};
ghost use Rattle.bc_journal.specs.Journal.{IsJournal, IsSealed, Journal};
ghost use Rattle.bc_jset.specs.EntryBytes.{IsLevel};
ghost use Rattle.bc_key.specs.Words.{words_of};

use bc_deed::bc_hand::hand::Hand;
use bc_journal::{Heads, Journal, Sealed};
use bc_key::{Key, encode};
use bc_keys::word_count;
use bc_node::in_blocks;
use std::alloc::{AllocError, Global};

/// What an entry is sealed with beside what it names.
#[derive(Drop)]
pub struct NextEntry {
    /// The number of the oldest entry that is still needed.
    pub last_seq: u64,
    /// The journal bucket that it begins.
    pub bucket: Option<u32>,
    /// What its record says besides its numbers, the root and the keys.
    pub rest: Vec<u64>,
}

/// With what the journal in hand is sealed, where the entry names `heads`. `None` comes for want of
/// memory.
pub fn next_in<C, B>(alloc: Global, hand: &Hand<C, B>, heads: &Heads) -> Option<NextEntry>
    requires { (j : Journal) × (hand.now.journal ≡ Some j) }
    ensures good { (j : Journal) → hand.now.journal ≡ Some j → IsJournal j }
    ensures next { (j : Journal) → hand.now.journal ≡ Some j
        → IfSome result (IsNext j heads.now) }
{
    let Some(part) = &hand.journal else {
        unreachable!()
    };
    let journal = part.get();
    let last_seq = journal.needed();
    let bucket = bucket_begun(journal);
    let rest = rest_in(alloc, journal.waiting(), heads).ok()?;
    Some(NextEntry {
        last_seq,
        bucket,
        rest,
    })
}

/// Seals the journal in hand into an entry that names `heads`, behind the deed that says so. Takes
/// no memory.
pub fn seal_next<C, B>(hand: &mut Hand<C, B>, heads: &Heads) -> Sealed
    requires journal { (j : Journal) × (hand.old.journal ≡ Some j) × CanSeal j }
    requires level { IsLevel heads.now.level }
    ensures { (j k : Journal) × (hand.old.journal ≡ Some j)
        × (hand.new ≡ record hand.old { journal = Some k }) × IsSealed j heads.now result k }
{
    let Some(mut part) = hand.journal.take() else {
        unreachable!()
    };
    let Ok(entry) = part.get_mut().seal(heads) else {
        unreachable!()
    };
    hand.journal = Some(part);
    entry
}

/// The journal bucket that the next entry begins.
pub fn bucket_begun(journal: &Journal) -> Option<u32>
    ensures { result ≡ begun_by journal.now }
{
    let ring = journal.ring();
    let g = ring.geometry();
    let next = ring.next();
    let bytes = 240 + 8 * word_count(journal.waiting());
    if usize::from(next.sector) + in_blocks(g.block, bytes) <= usize::from(g.bucket) {
        None
    } else if next.bucket + 1 < u32::from(g.journal) {
        Some(next.bucket + 1)
    } else {
        Some(0)
    }
}

/// What the record of an entry with these keys says besides its numbers, the root and the keys,
/// where it names `heads`.
pub fn rest_in(alloc: Global, keys: &[Key], heads: &Heads) -> Result<Vec<u64>, AllocError>
    ensures { IfOk result (λ rest. rest.items ≡ rest_of heads.now keys.now) }
{
    let mut rest = Vec::new(alloc);
    rest.push(word_count(keys) as u64)?;
    rest.push(heads.prio)?;
    push_words(&mut rest, &heads.uuid_bucket)?;
    push_words(&mut rest, &heads.root)?;
    Ok(rest)
}

// Adds a key's words.
fn push_words(words: &mut Vec<u64>, key: &Key) -> Result<(), AllocError>
    ensures { OnOk result (words.new.items ≡ words.old.items ++ words_of key.now) }
{
    let mut more = [0; 8];
    let count = encode(key, &mut more);
    words.extend_from_slice(&more[..count])
}
