//! Checksums of records that were changed.
ghost use Rattle.std.specs.Prelude.{◌≡◌, ◌+◌, ◌*◌, ◌^◌, ◌<◌, ◌≤◌, length};

use bc_bytes::{crc64, get_u16, get_u32, put_u64};

/// What a record is, as far as its checksum asks.
#[derive(Clone, Copy, Debug, PartialEq, Eq, Drop)]
pub enum Kind {
    /// A superblock.
    Super,
    /// An entry of the journal.
    Entry,
    /// A set of generations, which fills a bucket of so many sectors.
    Generations { bucket: u16 },
    /// The table of uuids, which has no checksum.
    Table,
    /// A set of the node that begins at this sector.
    Set { node: usize },
}

/// A record, and the sector at which it begins.
#[derive(Clone, Copy, Debug, PartialEq, Eq, Drop)]
pub struct Record {
    pub sector: usize,
    pub kind: Kind,
}

/// How many bytes the checksum of the record at a byte covers, its own eight among them; 8 where it
/// has none.
pub fn sealed(bytes: &[u8], at: usize, kind: Kind) -> usize
    requires { at + 512 ≤ length bytes.now }
    ensures some { 8 ≤ result }
    ensures few { result ≤ 2 ^ 36 }
{
    match kind {
        Kind::Super => 208 + 8 * get_u16(bytes, at + 206) as usize,
        Kind::Entry => 240 + 8 * get_u32(bytes, at + 28) as usize,
        Kind::Generations { bucket } => 512 * (bucket as usize).max(1),
        Kind::Table => 8,
        Kind::Set { .. } => 32 + 8 * get_u32(bytes, at + 28) as usize,
    }
}

// What the checksum of a record starts from.
fn start_of(kind: Kind) -> u64 {
    match kind {
        Kind::Set { node } => (node as u64) << 8,
        _ => u64::MAX,
    }
}

/// Gives a record the checksum of its bytes; none where it has none, and where these would be more
/// than there are.
pub fn seal(bytes: &mut [u8], what: &Record)
    requires sector { what.now.sector < 16384 }
    requires within { 512 * what.now.sector + 512 ≤ length bytes.old }
    ensures { length bytes.new ≡ length bytes.old }
{
    let at = 512 * what.sector;
    let end = at + sealed(bytes, at, what.kind);
    if end > bytes.len() || end == at + 8 {
        return;
    }
    let sum = crc64(start_of(what.kind), &bytes[at + 8..end]);
    put_u64(bytes, at, sum);
}
