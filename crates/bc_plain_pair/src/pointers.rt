//! Whether all pointers are within their ranges.
ghost use Rattle.std.specs.Prelude.{◌≡◌, ◌<◌, All};
ghost use Rattle.std.specs.Bool.{MatchBool};
ghost use Rattle.bc_image.specs.Pointers.{PointsIntoData};
ghost use Rattle.bc_image.specs.Sound.{HasPointers, IsDataKey, IsNodeKey};
ghost use Rattle.bc_image.specs.Reading.{keys_of};

use crate::node::Node;
use crate::parts::lies_in_data;
use crate::reading::Reading;
use bc_disk::geometry::Geometry;
use bc_key::Key;

/// Behind the last sector that there may be.
const LAST_END: u64 = 1 << 40;

/// Whether a key's sectors lie, by each of its pointers, whole in one data bucket.
pub fn points_into_data(g: &Geometry, key: &Key) -> bool
    ensures { MatchBool result (PointsIntoData g.now key.now) (¬ (PointsIntoData g.now key.now)) }
{
    for i in 0..key.count as usize {
        if !lies_in_data(g, &key.ptrs[i], key.size) {
            return false;
        }
    }
    true
}

/// Whether a key may be that of a node.
pub fn is_node_key(g: &Geometry, key: &Key) -> bool
    ensures { MatchBool result (IsNodeKey g.now key.now) (¬ (IsNodeKey g.now key.now)) }
{
    key.size == g.node_sectors && key.count > 0 && points_into_data(g, key)
}

/// Whether a key may be one of data, where the backing device has so many sectors of it.
pub fn is_data_key(g: &Geometry, size: u64, key: &Key) -> bool
    ensures { MatchBool result (IsDataKey g.now size key.now) (¬ (IsDataKey g.now size key.now)) }
{
    points_into_data(g, key) && (key.count == 0 || key.end <= size)
}

// Whether each node's key may be one.
fn are_node_keys(g: &Geometry, nodes: &[Node]) -> bool
    ensures { MatchBool result (All (λ n. IsNodeKey g.now n.key) nodes.now)
        (¬ (All (λ n. IsNodeKey g.now n.key) nodes.now)) }
{
    for node in nodes {
        if !is_node_key(g, node.key()) {
            return false;
        }
    }
    true
}

/// Whether each key may be one of data.
pub fn are_data_keys(g: &Geometry, size: u64, keys: &[Key]) -> bool
    ensures { MatchBool result (All (IsDataKey g.now size) keys.now)
        (¬ (All (IsDataKey g.now size) keys.now)) }
{
    for key in keys {
        if !is_data_key(g, size, key) {
            return false;
        }
    }
    true
}

/// Whether a key may be that of the table of uuids.
pub fn is_table_key(g: &Geometry, key: &Key) -> bool
    ensures { MatchBool result ((0 < key.now.count) × PointsIntoData g.now key.now)
        (¬ ((0 < key.now.count) × PointsIntoData g.now key.now)) }
{
    key.count > 0 && points_into_data(g, key)
}

/// Whether all pointers of a reading are within their ranges, where these are its keys and the
/// backing device has so many sectors of data.
pub fn has_pointers(g: &Geometry, size: u64, r: &Reading, keys: &[Key]) -> bool
    requires { keys.now ≡ keys_of r.now }
    ensures { MatchBool result (HasPointers g.now size r.now) (¬ (HasPointers g.now size r.now)) }
{
    are_node_keys(g, r.nodes())
        && r.newest().item.root.end == LAST_END
        && is_table_key(g, &r.newest().item.uuid_bucket)
        && are_data_keys(g, size, keys)
}
