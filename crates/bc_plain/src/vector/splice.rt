//! A part of a `Vec` that gives way to other keys, within the memory that there is.

ghost use Rattle.std.specs.Prelude.{◌≡◌, ◌+◌, ◌-◌, ◌≤◌, ◌++◌, length, take, drop, vec_len, vec_capacity};

use bc_key::Key;

/// Adds these keys at the end, where they have room.
fn append_within(keys: &mut Vec<Key>, more: &[Key])
    requires { vec_len keys.old + length more.now ≤ vec_capacity keys.old }
    ensures items { keys.new.items ≡ keys.old.items ++ more.now }
    ensures capacity { vec_capacity keys.new ≡ vec_capacity keys.old }
{
    for key in more {
        keys.push_reserved(*key);
    }
}

/// Puts these keys before the one at this place, and moves those behind them once.
fn put_before(keys: &mut Vec<Key>, place: usize, more: &[Key])
    requires within { place ≤ vec_len keys.old }
    requires room { vec_len keys.old + length more.now ≤ vec_capacity keys.old }
    ensures items { keys.new.items ≡ take place keys.old.items ++ (more.now ++ drop place keys.old.items) }
    ensures capacity { vec_capacity keys.new ≡ vec_capacity keys.old }
{
    append_within(keys, more);
    keys[place..].rotate_right(more.len());
}

/// Writes these keys over those from `from` on.
fn write_over(keys: &mut Vec<Key>, from: usize, parts: &[Key])
    requires { from + length parts.now ≤ vec_len keys.old }
    ensures items { keys.new.items
        ≡ take from keys.old.items ++ (parts.now ++ drop (from + length parts.now) keys.old.items) }
    ensures capacity { vec_capacity keys.new ≡ vec_capacity keys.old }
{
    keys[from..from + parts.len()].copy_from_slice(parts);
}

/// Removes the keys from `from` on up to `to`.
fn remove_between(keys: &mut Vec<Key>, from: usize, to: usize)
    requires order { from ≤ to }
    requires within { to ≤ vec_len keys.old }
    ensures items { keys.new.items ≡ take from keys.old.items ++ drop to keys.old.items }
    ensures capacity { vec_capacity keys.new ≡ vec_capacity keys.old }
{
    let gone = to - from;
    keys[from..].rotate_left(gone);
    keys.truncate(keys.len() - gone);
}

/// Puts these keys in the place of those from `from` on up to `to`, in one pass over the keys behind
/// them. Takes no memory.
pub fn replace_between(keys: &mut Vec<Key>, from: usize, to: usize, parts: &[Key])
    requires order { from ≤ to }
    requires within { to ≤ vec_len keys.old }
    requires room { vec_len keys.old + length parts.now ≤ vec_capacity keys.old + (to - from) }
    ensures items { keys.new.items ≡ take from keys.old.items ++ (parts.now ++ drop to keys.old.items) }
    ensures capacity { vec_capacity keys.new ≡ vec_capacity keys.old }
{
    let had = to - from;
    if parts.len() <= had {
        write_over(keys, from, parts);
        remove_between(keys, from + parts.len(), to);
    } else {
        let (instead, more) = parts.split_at(had);
        put_before(keys, to, more);
        write_over(keys, from, instead);
    }
}
