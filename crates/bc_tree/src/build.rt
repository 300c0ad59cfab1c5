//! The leaves that inner nodes name.
ghost use Rattle.std.specs.Prelude.{◌≡◌, All, OnOk, IfOk};
ghost use Rattle.bc_disk.specs.declared.geometry.Geometry.{Geometry};
ghost use Rattle.bc_spine.specs.Leaves.{AreCounted};
ghost use Rattle.bc_tree.specs.Spine.{AreInRow, AreInner, AreLeavesOf, Covers, HaveCome, Rise, children_in, last_end, row_end};

use bc_inner::Inner;
use bc_key::Key;
use bc_spine::Leaves;
use std::alloc::{AllocError, Global};

/// Adds the leaves that keys name behind the others.
fn push_children(leaves: &mut Leaves, keys: &[Key]) -> Result<(), AllocError>
    requires rise { Rise leaves.old.end keys.now }
    requires counted { AreCounted 0 leaves.old.leaves }
    ensures come { OnOk result (HaveCome keys.now leaves.old leaves.new) }
    ensures end { OnOk result (leaves.new.end ≡ last_end leaves.old.end keys.now) }
{
    for key in keys {
        leaves.push(key.end, key.ptrs[0])?;
    }
    Ok(())
}

/// Adds the leaves that are the children of nodes behind the others.
fn push_nodes(leaves: &mut Leaves, nodes: &[Inner]) -> Result<(), AllocError>
    requires row { AreInRow leaves.old.end nodes.now }
    requires counted { AreCounted 0 leaves.old.leaves }
    ensures come { OnOk result (HaveCome (children_in nodes.now) leaves.old leaves.new) }
    ensures end { OnOk result (leaves.new.end ≡ row_end leaves.old.end nodes.now) }
    ensures cover { OnOk result (All Covers nodes.now) }
{
    for node in nodes {
        push_children(leaves, node.children())?;
    }
    Ok(())
}

/// The leaves below a root, by numbers from 0 on.
pub fn leaves_below(alloc: Global, root: &Inner, below: &[Inner]) -> Result<Leaves, AllocError>
    requires { (g : Geometry) × AreInner g root.now below.now }
    ensures { IfOk result (AreLeavesOf root.now below.now) }
{
    let children = root.children();
    let mut leaves = Leaves::new(alloc);
    if below.is_empty() {
        push_children(&mut leaves, children)?;
        return Ok(leaves);
    }
    push_nodes(&mut leaves, below)?;
    Ok(leaves)
}
