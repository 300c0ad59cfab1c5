//! How the device is divided.
use bc_disk::geometry::Geometry;

const SMALL: Geometry = Geometry {
    block: 1,
    bucket: 64,
    nbuckets: 128,
    first_bucket: 1,
    journal: 8,
    set_magic: 1,
    node_sectors: 64,
};

const MIDDLE: Geometry = Geometry {
    block: 1,
    bucket: 256,
    nbuckets: 128,
    first_bucket: 1,
    journal: 8,
    set_magic: 1,
    node_sectors: 256,
};

const LARGE: Geometry = Geometry {
    block: 1,
    bucket: 512,
    nbuckets: 128,
    first_bucket: 1,
    journal: 8,
    set_magic: 1,
    node_sectors: 512,
};

/// A device whose nodes have so many sectors: 64, 256 or 512.
pub fn device(sectors: u16) -> Option<Geometry> {
    match sectors {
        64 => Some(SMALL),
        256 => Some(MIDDLE),
        512 => Some(LARGE),
        _ => None,
    }
}
