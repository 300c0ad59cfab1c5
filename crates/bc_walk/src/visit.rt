//! What a walk does at each key.

use bc_key::Key;

/// What a walk does at the key of a node.
#[derive(Clone, Copy, Debug, PartialEq, Eq, Drop)]
pub enum Visit {
    /// It read the node of this level, whose range begins at sector `from`.
    Met { level: u16, from: u64, key: Key },
    /// It read no node: no node's key is like this one, which has no pointer, or one that points
    /// elsewhere than into the data buckets, or not the size of a node.
    Barred { key: Key },
    /// It read no node, since one in its bucket was met before.
    Again { key: Key },
}
