//! A leaf that is cut in two.
ghost use Rattle.std.specs.Prelude.{◌<◌};

use bc_extent::Extents;
use bc_key::{Key, Ptr};
use bc_tree::{cut_of, first_half, keys_between, replaced, set_keys};
use std::alloc::{AllocError, Global};
use std::test::Fail;

/// The keys of three extents, of which the second crosses sector 256.
fn three(alloc: Global) -> Result<Extents, AllocError> {
    let mut keys = Extents::new(alloc);
    for (first, size) in [(0, 8_u16), (250, 12), (512, 8)] {
        let pointer = Ptr {
            dev: 0,
            offset: 4_096 + first,
            generation: 0,
        };
        keys.reserve(2)?;
        keys.insert(&Key::new(first + u64::from(size), size, true, Some(pointer)));
    }
    Ok(keys)
}

/// Whether the keys are of these ranges, and lie where the extents do.
fn are(keys: &[Key], ranges: &[(u64, u64)]) -> bool {
    if keys.len() != ranges.len() {
        return false;
    }
    for (key, range) in keys.iter().zip(ranges) {
        if (key.start(), key.end) != *range
            || key.ptrs[0].offset != key.start().saturating_add(4_096)
        {
            return false;
        }
    }
    true
}

#[test]
fn a_leaf_is_cut_in_two(rt: HostRuntime) -> Result<(), Fail> {
    let alloc = rt.alloc();
    let keys = three(alloc)?;
    let low = keys_between(alloc, &keys, 0, 256)?;
    assert!(rt; are(&low, &[(0, 8), (250, 256)]));
    let high = keys_between(alloc, &keys, 256, 1_024)?;
    assert!(rt; are(&high, &[(256, 262), (512, 520)]));
    assert!(rt; keys_between(alloc, &keys, 600, 1_024)?.is_empty());
    let none = Extents::new(alloc);
    assert_eq!(rt; cut_of(&none, 512, 1_024), 768);
    Ok(())
}

/// The keys of a set that cuts the first of two children.
fn cut_first(alloc: Global, low: &Key, high: &Key, other: &Key) -> Result<Vec<Key>, AllocError>
    requires low { 0 < low.now.count }
    requires high { 0 < high.now.count }
    requires order { low.now.end < high.now.end }
    requires behind { high.now.end < other.now.end }
{
    set_keys(alloc, &[*high, *other], 0, 1, &[*low, *high])
}

#[test]
fn children_give_way(rt: HostRuntime) -> Result<(), Fail> {
    let alloc = rt.alloc();
    let child = |end: u64| Key::new(end, 64, false, Some(Ptr::ZERO));
    let old = [child(256), child(512), child(1_024)];
    let come = [child(768), child(1_024)];
    let new = replaced(alloc, &old, 2, 1, &come)?;
    assert!(rt; new.len() == 4 && new[2] == come[0] && new[3] == come[1]);
    let low = Key::new(256, 64, false, Some(Ptr::ZERO));
    let high = Key::new(512, 64, false, Some(Ptr::ZERO));
    let other = Key::new(1_024, 64, false, Some(Ptr::ZERO));
    let keys = cut_first(alloc, &low, &high, &other)?;
    assert!(rt; keys.len() == 2 && keys[0] == low && keys[1] == high);
    assert_eq!(rt; first_half(7, 7), None);
    assert_eq!(rt; first_half(8, 7), Some(4));
    Ok(())
}
