//! Leaves beside a plain list of them.
ghost use Rattle.std.specs.Prelude.{◌≡◌, ◌+◌, ◌%◌, ◌≤◌, length, IfOk, IfSome};
ghost use Rattle.bc_spine.specs.Exchange.{IsFor, coming};

use bc_key::Ptr;
use bc_spine::{Exchange, LeafRange, Leaves};
use std::alloc::{AllocError, Global};
use std::test::Fail;

/// The sector behind the last one.
const END: u64 = 1 << 40;

/// The least number from `from` on that no leaf of a plain list has.
fn slow_free(list: &[LeafRange], from: u32) -> u32 {
    for number in from..u32::MAX {
        if !list.iter().any(|leaf| leaf.number == number) {
            return number;
        }
    }
    u32::MAX
}

/// The plain list after an exchange.
fn slow_install(
    alloc: Global,
    list: &[LeafRange],
    e: &Exchange,
) -> Result<Vec<LeafRange>, AllocError> {
    let behind = e.place.saturating_add(e.gone);
    let mut new = Vec::new(alloc);
    for (i, leaf) in list.iter().enumerate() {
        if i == e.place {
            new.push(e.first)?;
            if let Some(second) = e.second {
                new.push(second)?;
            }
        }
        if i < e.place || i >= behind {
            new.push(*leaf)?;
        }
    }
    Ok(new)
}

/// Whether the numbers that come are the least ones.
fn has_least(list: &[LeafRange], e: &Exchange) -> bool {
    let first = slow_free(list, 0);
    match e.second {
        None => e.first.number == first,
        Some(second) => {
            e.first.number == first && second.number == slow_free(list, first.saturating_add(1))
        }
    }
}

/// Whether the path of a sector is this number.
fn leads_to(leaves: &Leaves, sector: u64, number: u32) -> bool {
    sector < leaves.end() && leaves.path(sector) == number
}

/// Whether the leaves are those of the plain list, and are found by their first and last sectors.
fn agree(leaves: &Leaves, list: &[LeafRange]) -> bool {
    if leaves.len() != list.len() {
        return false;
    }
    for (i, leaf) in list.iter().enumerate() {
        if i >= leaves.len() || leaves.leaf(i) != *leaf {
            return false;
        }
        let last = leaf.end.saturating_sub(1);
        if !leads_to(leaves, leaf.from, leaf.number) || !leads_to(leaves, last, leaf.number) {
            return false;
        }
    }
    true
}

/// Where a leaf may be cut, if it may: at the last multiple of 256 in its first half.
fn cut_of(leaf: &LeafRange) -> u64
    ensures { result % 256 ≡ 0 }
{
    let half = leaf.end.saturating_sub(leaf.from) / 2;
    leaf.from.saturating_add(half) / 256 * 256
}

/// What becomes of the leaf at a place: it is cut in two, merged with the next, or moved.
fn plan(
    leaves: &mut Leaves,
    place: usize,
    act: u64,
    to: Ptr,
) -> Result<Option<Exchange>, AllocError>
    ensures { IfOk result (λ some. IfSome some (λ e. IsFor leaves.new.leaves e
        × (length (coming e) ≤ leaves.new.spare + e.gone))) }
{
    if place >= leaves.len() {
        return Ok(None);
    }
    let leaf = leaves.leaf(place);
    let cut = cut_of(&leaf);
    if act == 0 && leaf.from < cut && cut < leaf.end {
        let e = leaves.plan_split(place, cut, to, to)?;
        return Ok(Some(e));
    }
    if act == 1 && place < leaves.len() - 1 {
        let e = leaves.plan_merge(place, to)?;
        return Ok(Some(e));
    }
    let e = leaves.plan_rewrite(place, to, 1)?;
    Ok(Some(e))
}

/// A change of both, and whether they agree.
fn step(
    alloc: Global,
    leaves: &mut Leaves,
    list: &[LeafRange],
    place: usize,
    act: u64,
) -> Result<(Vec<LeafRange>, bool), AllocError> {
    let to = Ptr {
        dev: 0,
        offset: place as u64 % (1 << 43),
        generation: 1,
    };
    let Some(e) = plan(leaves, place, act, to)? else {
        let same = Vec::from_slice(alloc, list)?;
        return Ok((same, true));
    };
    let least = has_least(list, &e);
    let new = slow_install(alloc, list, &e)?;
    leaves.install(&e);
    Ok((new, least))
}

/// One leaf of all sectors.
fn one_leaf(alloc: Global) -> Result<Leaves, AllocError> {
    let mut leaves = Leaves::new(alloc);
    leaves.push(END, Ptr::ZERO)?;
    Ok(leaves)
}

/// Cuts the leaf of a place, where it may be cut.
fn cut_at(leaves: &mut Leaves, place: usize) -> Result<(), AllocError> {
    if let Some(e) = plan(leaves, place, 0, Ptr::ZERO)? {
        leaves.install(&e);
    }
    Ok(())
}

/// The path of the first sector of each of 1,100 leaves is its number, and so is that of its last.
#[test]
fn each_of_many_leaves_is_found(rt: HostRuntime) -> Result<(), Fail> {
    let mut leaves = one_leaf(rt.alloc())?;
    let mut place = 0;
    for _ in 0..1_099 {
        if place >= leaves.len() {
            place = 0;
        }
        cut_at(&mut leaves, place)?;
        place = place.saturating_add(2);
    }
    assert_eq!(rt; leaves.len(), 1_100);
    for place in 0..leaves.len() {
        let leaf = leaves.leaf(place);
        assert!(rt; leads_to(&leaves, leaf.from, leaf.number));
        assert!(rt; leads_to(&leaves, leaf.end.saturating_sub(1), leaf.number));
    }
    Ok(())
}

/// Leaves come and go as in a plain list.
#[test]
fn leaves_are_those_of_a_plain_list(rt: HostRuntime) -> Result<(), Fail> {
    let alloc = rt.alloc();
    let mut leaves = one_leaf(alloc)?;
    let mut list = Vec::new(alloc);
    if leaves.len() > 0 {
        list.push(leaves.leaf(0))?;
    }
    let mut seed: u64 = 1;
    for turn in 0..300_u64 {
        seed = (seed % (1 << 32)) * 1_103_515_245 + 12_345;
        let place = (seed / 65_536 % leaves.len().max(1) as u64) as usize;
        let act = if turn < 40 { 0 } else { seed / 7 % 3 };
        let (new, least) = step(alloc, &mut leaves, list.as_slice(), place, act)?;
        list = new;
        assert!(rt; least);
        assert!(rt; agree(&leaves, list.as_slice()));
    }
    assert!(rt; leaves.len() > 10);
    Ok(())
}
