//! Pointers that point where they may not.
ghost use Rattle.std.specs.Prelude.{ℕ, ◌++◌, ◌<◌, true, List, MatchOption};
ghost use Rattle.std.specs.Bool.{MatchBool};
ghost use Rattle.bc_image.specs.Sound.{IsDataKey};
ghost use Rattle.bc_image.specs.Tree.{set_keys};
ghost use Rattle.bc_key.specs.Key.{ptr_at};
ghost use Rattle.bc_key.specs.declared.key.Key.{Key};
ghost use Rattle.bc_walk.specs.Rule.{Rule};
ghost use Rattle.bc_replay.specs.Limits.{rule_in};
ghost use Rattle.bc_replay.specs.Refused.{IsFirstPtr, IsDataWord, IsNodeWord, IsFirstNode, NoneBarred, KeepsWord, MayBeData, MayBeNode, MayBeRead, TellTrue};

use bc_disk::geometry::Geometry;
use bc_key::{Key, Ptr};
use bc_node::word_of;
use bc_set::Set;
use bc_walk::{Visit, lies_in_data};

/// Behind the last sector that there may be.
const LAST_END: u64 = 1 << 40;

/// By what pointers are judged.
#[derive(Clone, Copy, Debug, PartialEq, Eq, Drop)]
pub struct Limits {
    /// How the cache device is divided.
    pub geometry: Geometry,
    /// How many sectors of data the backing device has.
    pub size: u64,
}

/// Whether a pointer of a key of data may be as it is.
fn may_be_data(limits: &Limits, key: &Key, ptr: &Ptr) -> bool
    ensures { MatchBool result (MayBeData (rule_in limits.now) key.now ptr.now)
        (¬ (MayBeData (rule_in limits.now) key.now ptr.now)) }
{
    key.end <= limits.size && lies_in_data(&limits.geometry, ptr, key.size)
}

/// The word of a key's first pointer that may not be as it is, where the key is one of data.
fn data_word(limits: &Limits, key: &Key) -> Option<u64>
    ensures { MatchOption result (IsDataKey limits.now.geometry limits.now.size key.now)
        (IsDataWord (rule_in limits.now) key.now) }
{
    for i in 0..key.count as usize {
        if !may_be_data(limits, key, &key.ptrs[i]) {
            return Some(word_of(&key.ptrs[i]));
        }
    }
    None
}

/// The word that is kept, with more keys.
pub fn word_with(limits: &Limits, word: Option<u64>, keys: &[Key]) -> Option<u64>
    ensures { (seen : List Key) → KeepsWord (rule_in limits.now) seen word
        → KeepsWord (rule_in limits.now) (seen ++ keys.now) result }
{
    if word.is_some() {
        return word;
    }
    for key in keys {
        let word = data_word(limits, key);
        if word.is_some() {
            return word;
        }
    }
    None
}

/// The word that is kept, with the keys of more sets.
pub fn word_with_sets(limits: &Limits, word: Option<u64>, sets: &[Set]) -> Option<u64>
    ensures { (seen : List Key) → KeepsWord (rule_in limits.now) seen word
        → KeepsWord (rule_in limits.now) (seen ++ set_keys sets.now) result }
{
    let mut word = word;
    for set in sets {
        word = word_with(limits, word, set.keys.as_slice());
    }
    word
}

/// Whether a pointer of a node's key may be as it is; the root's key has to end behind the last
/// sector.
fn may_be_node(g: &Geometry, root: bool, key: &Key, ptr: &Ptr) -> bool
    ensures { MatchBool result (MayBeNode g.now root key.now ptr.now)
        (¬ (MayBeNode g.now root key.now ptr.now)) }
{
    key.size == g.node_sectors && (!root || key.end == LAST_END) && lies_in_data(g, ptr, key.size)
}

/// The word of the first pointer of a node's key that may not be as it is.
fn refused_word(g: &Geometry, root: bool, key: &Key) -> Option<u64>
    ensures { MatchOption result
        ((i : ℕ) → i < key.now.count → MayBeNode g.now root key.now (ptr_at key.now i))
        (IsFirstPtr (MayBeNode g.now root key.now) key.now) }
{
    for i in 0..key.count as usize {
        if !may_be_node(g, root, key, &key.ptrs[i]) {
            return Some(word_of(&key.ptrs[i]));
        }
    }
    None
}

/// The word of the first pointer that may not be as it is, of a key by which no node may be read: 0
/// where it has none.
fn node_word(g: &Geometry, root: bool, key: &Key) -> u64
    ensures { ¬ (MayBeRead g.now root key.now) → IsNodeWord g.now root key.now result }
{
    match refused_word(g, root, key) {
        Some(word) => word,
        None => 0,
    }
}

/// Of the nodes that a walk didn't read, since their keys may not be so, the word of the first one's
/// key.
pub fn barred_word(g: &Geometry, seen: &[Visit]) -> Option<u64>
    ensures { TellTrue g.now true seen.now → MatchOption result (NoneBarred seen.now)
        (IsFirstNode g.now true seen.now) }
{
    let mut root = true;
    for visit in seen {
        if let Visit::Barred { key } = visit {
            return Some(node_word(g, root, key));
        }
        root = false;
    }
    None
}
