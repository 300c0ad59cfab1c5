//! What several calls after another leave, each law the contract of a function.

ghost use Rattle.std.specs.Prelude.{◌≡◌, ℕ, List, [], ◌∷◌, ◌++◌, Option};
ghost use Rattle.bc_key.specs.declared.key.Key.{Key};
ghost use Rattle.bc_key.specs.Key.{IsExtent, start_of};
ghost use Rattle.bc_extent.specs.LastKey.{last_key};
ghost use Rattle.bc_extent.specs.Extents.{IsInOrder, Shows, erased};
ghost use Rattle.bc_extent.specs.Inserts.{AreInserted};
ghost use Rattle.bc_extent.specs.Calls.{Change, AreChanged, changed_by, last_key_over, live, GivesParts};

/// The keys of a list, inserted one after another, give each sector the list's last key.
pub fn inserts_show_the_list()
    ensures { (keys new : List Key) → AreInserted keys [] new → Shows (last_key keys) new }
{}

/// The keys of a list, inserted one after another into any map, give each sector the list's last
/// key, and where the list has none what the map gave before.
pub fn inserts_compose()
    ensures { (look : ℕ → Option Key) (keys old new : List Key)
        → IsInOrder old → Shows look old → AreInserted keys old new → Shows (last_key_over keys look) new }
{}

/// Where a list shows a look-up, the list after an erase shows that look-up without the sectors.
pub fn erase_composes()
    ensures { (look : ℕ → Option Key) (keys new : List Key) (first count : ℕ)
        → IsInOrder keys → Shows look keys → Shows (erased first count (last_key keys)) new
        → Shows (erased first count look) new }
{}

/// Where a list shows a look-up, the list after any inserts and erases shows that look-up changed by
/// one after the other.
pub fn changes_compose()
    ensures { (look : ℕ → Option Key) (changes : List Change) (old new : List Key)
        → IsInOrder old → Shows look old → AreChanged changes old new
        → Shows (changed_by changes look) new × IsInOrder new }
{}

/// Of two lists, one behind the other, a sector has the last key of the second one, and else that of
/// the first one.
pub fn lists_join()
    ensures { (one two : List Key) (sector : ℕ)
        → last_key (one ++ two) sector ≡ last_key_over two (last_key one) sector }
{}

/// A list that shows a look-up has a live key exactly where the look-up has one, and that is a part
/// of it: a key keeps its number of pointers where it is cut.
pub fn live_keys_are_shown()
    ensures { (look : ℕ → Option Key) (keys : List Key)
        → Shows look keys → GivesParts (live look) (live (last_key keys)) }
{}

/// To live look-ups an erase does what it does to all, and a new key without pointers is an erase of
/// its range.
pub fn bare_keys_erase()
    ensures erased { (look : ℕ → Option Key) (first count sector : ℕ)
        → live (erased first count look) sector ≡ erased first count (live look) sector }
    ensures bare { (keys : List Key) (key : Key) (sector : ℕ) → IsExtent key → key.count ≡ 0
        → live (last_key (keys ++ key ∷ [])) sector
        ≡ erased (start_of key) key.size (live (last_key keys)) sector }
{}
