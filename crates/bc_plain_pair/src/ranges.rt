//! Whether each node's keys lie in its range, and its children cover it.
ghost use Rattle.std.specs.Prelude.{◌≡◌, ◌%◌, All, Any, IfOk};
ghost use Rattle.std.specs.Bool.{MatchBool};
ghost use Rattle.bc_image.specs.Sound.{CoverUpTo, HasRanges, KeepsRange};
ghost use Rattle.bc_model.specs.Pieces.{piece_sectors};

use crate::children::children_of;
use crate::node::{Node, set_keys};
use crate::parts::are_within;
use crate::reading::Reading;
use bc_key::Key;
use std::alloc::{AllocError, Global};

// Whether each child ends at a multiple of 256.
fn are_aligned(children: &[Key]) -> bool
    ensures { MatchBool result (All (λ c. c.end % piece_sectors ≡ 0) children.now)
        (¬ (All (λ c. c.end % piece_sectors ≡ 0) children.now)) }
{
    for child in children {
        if child.end % 256 != 0 {
            return false;
        }
    }
    true
}

// Whether some child ends there.
fn one_ends(children: &[Key], end: u64) -> bool
    ensures { MatchBool result (Any (λ c. c.end ≡ end) children.now)
        (¬ (Any (λ c. c.end ≡ end) children.now)) }
{
    for child in children {
        if child.end == end {
            return true;
        }
    }
    false
}

// Whether the ranges of children cover that of their node.
fn cover(level: u16, children: &[Key], end: u64) -> bool
    ensures { MatchBool result (CoverUpTo level children.now end)
        (¬ (CoverUpTo level children.now end)) }
{
    level == 0 || are_aligned(children) && one_ends(children, end)
}

/// Whether each key of a node lies in its range, and its children cover it.
pub fn keeps_range(alloc: Global, node: &Node) -> Result<bool, AllocError>
    ensures { IfOk result (λ so. MatchBool so (KeepsRange node.now) (¬ (KeepsRange node.now))) }
{
    let keys = set_keys(alloc, node.sets())?;
    let children = children_of(alloc, &keys)?;
    let (level, end) = (node.level(), node.key().end);
    Ok(are_within(level, node.from(), end, &keys) && cover(level, &children, end))
}

/// Whether that holds of all nodes.
pub fn has_ranges(alloc: Global, r: &Reading) -> Result<bool, AllocError>
    ensures { IfOk result (λ so. MatchBool so (HasRanges r.now) (¬ (HasRanges r.now))) }
{
    let nodes = r.nodes();
    for node in nodes {
        if !keeps_range(alloc, node)? {
            return Ok(false);
        }
    }
    Ok(true)
}
