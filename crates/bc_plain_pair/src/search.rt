//! A walk through an index of any bytes.
//!
//! A walk that follows each key has an end only where the nodes are a tree. This one reads no node
//! where a key may not point, and none twice; it ends at the first node that has a fault.
use crate::children::children_of;
use crate::node::{Node, node_at, set_keys};
use crate::pointers::is_node_key;
use crate::ranges::keeps_range;
use crate::shown::bucket_at;
use bc_disk::geometry::Geometry;
use bc_key::Key;
use std::alloc::{AllocError, Global};

/// What such a walk has met.
#[derive(Drop)]
pub struct Search {
    /// The nodes that it read.
    pub nodes: Vec<Node>,
    /// The buckets of these.
    pub buckets: Vec<u64>,
    /// The buckets to which it came again.
    pub again: Vec<u64>,
    /// Whether it came to a key that may not be a node's.
    pub barred: bool,
    /// The bucket of the node at whose fault it ended.
    pub fault: Option<u64>,
}

impl Search {
    /// One that has met nothing.
    pub fn new(alloc: Global) -> Search {
        Search {
            nodes: Vec::new(alloc),
            buckets: Vec::new(alloc),
            again: Vec::new(alloc),
            barred: false,
            fault: None,
        }
    }

    // The bucket of the node that a key points to, if that one is to be read.
    fn enter(&mut self, g: &Geometry, key: &Key) -> Result<Option<u64>, AllocError> {
        let Some(ptr) = key.pointer() else {
            self.barred = true;
            return Ok(None);
        };
        if !is_node_key(g, key) {
            self.barred = true;
            return Ok(None);
        }
        let bucket = bucket_at(g, ptr.offset);
        if self.buckets.contains(&bucket) {
            self.again.push(bucket)?;
            return Ok(None);
        }
        self.buckets.push(bucket)?;
        Ok(Some(bucket))
    }

    // Reads the node of a level that a key points to, and gives its children. There are none
    // where it has a fault.
    fn read(
        &mut self,
        alloc: Global,
        image: &[u8],
        g: &Geometry,
        level: u16,
        from: u64,
        key: &Key,
        bucket: u64,
    ) -> Result<Vec<Key>, AllocError> {
        let Some(node) = node_at(alloc, image, g, level, from, key)? else {
            self.fault = Some(bucket);
            return Ok(Vec::new(alloc));
        };
        if !keeps_range(alloc, &node)? {
            self.fault = Some(bucket);
            return Ok(Vec::new(alloc));
        }
        let keys = set_keys(alloc, node.sets())?;
        self.nodes.push(node)?;
        children_of(alloc, &keys)
    }

    /// Goes on from a key, depth first, unless the walk has ended.
    #[cycle(search)]
    pub fn walk(
        &mut self,
        alloc: Global,
        image: &[u8],
        g: &Geometry,
        level: u16,
        from: u64,
        key: &Key,
    ) -> Result<(), AllocError> {
        let Some(bucket) = self.enter(g, key)? else {
            return Ok(());
        };
        let children = self.read(alloc, image, g, level, from, key, bucket)?;
        if level == 0 {
            return Ok(());
        }
        self.walk_all(alloc, image, g, level - 1, from, &children)
    }

    // Goes on from each child, each from the end of the one before on.
    #[cycle(search)]
    fn walk_all(
        &mut self,
        alloc: Global,
        image: &[u8],
        g: &Geometry,
        level: u16,
        from: u64,
        children: &[Key],
    ) -> Result<(), AllocError> {
        let mut low = from;
        for child in children {
            if self.fault.is_some() {
                return Ok(());
            }
            self.walk(alloc, image, g, level, low, child)?;
            low = child.end;
        }
        Ok(())
    }
}
