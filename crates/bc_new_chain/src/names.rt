//! What an entry names that has a new chain.
ghost use Rattle.std.specs.Prelude.{◌≡◌, ◌+◌, ◌-◌, ◌≤◌, ◌++◌, [], List, length, map, vec_capacity};
ghost use Rattle.bc_chained.specs.Laws.{numbers};
ghost use Rattle.bc_entry.specs.Seal.{rest_of};
ghost use Rattle.bc_journal.specs.Journal.{IsJournal};
ghost use Rattle.bc_jset.specs.EntryBytes.{IsLevel};
ghost use Rattle.bc_key.specs.Words.{words_of};
ghost use Rattle.bc_new_chain.specs.Seal.{with_chain};

use crate::room::ChainRoom;
use bc_journal::{Heads, Journal};
use bc_key::{Key, encode};
use bc_keys::word_count;

// What the newest durable entry names, with the chain in these buckets.
pub(crate) fn heads_with(journal: &Journal, new: &[u32]) -> Heads
    ensures heads { result ≡ with_chain journal.now.heads new.now }
    ensures level { IsLevel result.level }
    ensures good { IsJournal journal.now }
{
    let first = if new.is_empty() { 0 } else { new[0] };
    let heads = *journal.heads();
    Heads {
        prio: u64::from(first),
        ..heads
    }
}

// What the record of the next entry says, which names these heads, besides its numbers, the root and
// the keys; and the buckets of its chain as the core counts them, from the journal's first one on.
pub(crate) fn said_in(
    journal: &Journal,
    heads: &Heads,
    new: &[u32],
    room: ChainRoom,
) -> (Vec<u64>, Vec<u32>)
    requires { length new.now ≤ room.len }
    ensures rest { result.0.items ≡ rest_of heads.now journal.now.waiting }
    ensures chain { result.1.items ≡ numbers journal.now.ring.geometry new.now }
{
    let ChainRoom {
        mut rest,
        mut chain,
        ..
    } = room;
    add_rest(journal.waiting(), heads, &mut rest);
    let first = journal.ring().geometry().first_bucket;
    count_from(u32::from(first), new, &mut chain);
    (rest, chain)
}

// What the record of an entry with these keys says besides its numbers, the root and the keys.
fn add_rest(keys: &[Key], heads: &Heads, rest: &mut Vec<u64>)
    requires none { rest.old.items ≡ [] }
    requires room { 18 ≤ vec_capacity rest.old }
    ensures { rest.new.items ≡ rest_of heads.now keys.now }
{
    rest.push_reserved(word_count(keys) as u64);
    rest.push_reserved(heads.prio);
    push_words(rest, &heads.uuid_bucket);
    push_words(rest, &heads.root);
}

// Adds a key's words, for which there is room.
fn push_words(words: &mut Vec<u64>, key: &Key)
    requires { length words.old.items + 8 ≤ vec_capacity words.old }
    ensures items { words.new.items ≡ words.old.items ++ words_of key.now }
    ensures few { length words.new.items ≤ length words.old.items + 8 }
    ensures room { vec_capacity words.old ≤ vec_capacity words.new }
{
    let mut more = [0; 8];
    let count = encode(key, &mut more);
    let Ok(()) = words.extend_from_slice(&more[..count]) else {
        unreachable!()
    };
}

// Adds each of these, counted from this one on.
fn count_from(first: u32, new: &[u32], numbers: &mut Vec<u32>)
    requires none { numbers.old.items ≡ [] }
    requires room { length new.now ≤ vec_capacity numbers.old }
    ensures { numbers.new.items ≡ map (λ n. n - first) new.now }
{
    for bucket in new {
        numbers.push_reserved(bucket.saturating_sub(first));
    }
}
