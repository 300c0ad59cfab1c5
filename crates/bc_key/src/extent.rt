//! Which keys are extents, and their order.

ghost use Rattle.std.specs.Prelude.{◌≡◌, ◌<◌, ◌↔◌, IsOk, IfErr};
ghost use Rattle.bc_key.specs.Key.{IsExtent, order_of};

use crate::error::KeyError;
use crate::key::Key;
use std::cmp::Ordering;

/// Refuses a key whose size is above its end, by `SizeOverOffset`. Extents alone are tested by it,
/// since the key of a child node has the node's length as its size.
pub fn check_extent(k: &Key) -> Result<(), KeyError>
    ensures extent { IsOk result ↔ IsExtent k.now }
    ensures err { IfErr result (λ e. (e ≡ KeyError.SizeOverOffset) × (k.now.end < k.now.size)) }
{
    if u64::from(k.size) <= k.end {
        Ok(())
    } else {
        Err(KeyError::SizeOverOffset)
    }
}

/// Compares keys by inode, and then by end.
pub fn key_cmp(a: &Key, b: &Key) -> Ordering
    ensures { result ≡ order_of a.now b.now }
{
    a.inode.cmp(&b.inode).then(a.end.cmp(&b.end))
}
