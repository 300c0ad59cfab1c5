//! The list of journal buckets of a superblock.
ghost use Rattle.std.specs.Prelude.{◌↔◌, ◌+◌, ◌*◌, ◌≤◌, length, IsTrue};
ghost use Rattle.bc_bytes.specs.Fields.{SameOutside};
ghost use Rattle.bc_super.specs.Cache.{Lists};

use bc_bytes::{get_u64, put_u64};

/// Whether the list has so many buckets, those from the first one on.
pub(crate) fn lists(bytes: &[u8], first: u16, count: u16) -> bool
    requires { 208 + 8 * count ≤ length bytes.now }
    ensures { IsTrue result ↔ Lists bytes.now first count }
{
    for i in 0..count {
        let item = get_u64(bytes, 208 + 8 * usize::from(i));
        if item != u64::from(first) + u64::from(i) {
            return false;
        }
    }
    true
}

/// Writes a list of so many buckets, those from the first one on.
pub(crate) fn put_list(bytes: &mut [u8], first: u16, count: u16)
    requires { 208 + 8 * count ≤ length bytes.old }
    ensures list { Lists bytes.new first count }
    ensures others { SameOutside (8 * count) bytes.old bytes.new 208 }
{
    for i in 0..count {
        let item = u64::from(first) + u64::from(i);
        put_u64(bytes, 208 + 8 * usize::from(i), item);
    }
}
