//! Keys that are in no set yet.
ghost use Rattle.std.specs.Prelude.{◌≡◌, ◌+◌, ◌*◌, ◌≤◌, [], ◌∷◌, length, All};
ghost use Rattle.bc_key.specs.Key.{IsExtent};
ghost use Rattle.bc_node.specs.Leaf.{AreAdded, noted, noted_for};

use bc_extent::Extents;
use bc_key::Key;

/// The entries of the journal that hold some keys, by their numbers.
#[derive(Clone, Copy, Debug, PartialEq, Eq, Drop)]
pub struct Entries {
    /// The first one.
    pub first: u64,
    /// The last one.
    pub last: u64,
}

/// With one entry more, which holds some keys.
fn noted(entries: Option<Entries>, entry: u64) -> Entries
    ensures { result ≡ noted entries entry }
{
    match entries {
        Some(known) => Entries {
            first: known.first,
            last: entry,
        },
        None => Entries {
            first: entry,
            last: entry,
        },
    }
}

/// With the entry that holds these keys, where there are any.
pub fn noted_for(keys: &[Key], entry: u64, entries: Option<Entries>) -> Option<Entries>
    ensures { result ≡ noted_for keys.now entry entries }
{
    if keys.is_empty() {
        entries
    } else {
        Some(noted(entries, entry))
    }
}

/// Adds a key behind those whose last ones there are, those without pointers included.
fn add(map: &mut Extents, key: &Key)
    requires spare { 2 ≤ map.old.spare }
    requires extent { IsExtent key.now }
    ensures added { AreAdded (key.now ∷ []) map.old.keys map.new.keys }
    ensures spare { map.old.spare ≤ map.new.spare + 2 }
{
    map.insert(key);
}

/// Adds keys behind those whose last ones there are, those without pointers included. Takes no
/// memory.
pub fn add_all(map: &mut Extents, keys: &[Key])
    requires spare { 2 * length keys.now ≤ map.old.spare }
    requires extents { All IsExtent keys.now }
    ensures added { AreAdded keys.now map.old.keys map.new.keys }
    ensures spare { map.old.spare ≤ map.new.spare + 2 * length keys.now }
{
    for key in keys {
        add(map, key);
    }
}
