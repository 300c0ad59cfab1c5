//! Whether all that is pending of the leaves that go is durable.
ghost use Rattle.std.specs.Prelude.{◌↔◌, ◌+◌, ◌≤◌, length, IsTrue};
ghost use Rattle.bc_by_root.specs.Given.{AreDurableTo, IsDurableTo};
ghost use Rattle.bc_spine.specs.Exchange.{going};

use bc_cache::NodeCache;
use bc_spine::Exchange;
use bc_tree::Spine;

// Whether that is so of the leaf of a number. One that is in no slot has nothing pending there.
fn is_durable_to(cache: &NodeCache, number: u32, upto: u64) -> bool
    ensures { IsTrue result ↔ IsDurableTo cache.now.slots number upto }
{
    let Some(slot) = cache.find(number) else {
        return true;
    };
    match cache.leaf(slot).entries() {
        None => true,
        Some(entries) => entries.last <= upto,
    }
}

/// Whether all that is pending of the leaves that go is in entries up to one.
pub fn are_durable_to(cache: &NodeCache, spine: &Spine, e: &Exchange, upto: u64) -> bool
    requires { e.now.place + e.now.gone ≤ length spine.now.leaves }
    ensures { IsTrue result
        ↔ AreDurableTo cache.now.slots (going spine.now.leaves e.now) upto }
{
    let _ = spine.len();
    for i in 0..e.gone {
        if !is_durable_to(cache, spine.leaf(e.place + i).number, upto) {
            return false;
        }
    }
    true
}
