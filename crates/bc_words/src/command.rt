//! What a command line asks for.
use bc_mode::Mode;

/// What the words of a command line ask for.
#[derive(Clone, Copy, Debug, PartialEq, Eq, Drop)]
pub enum Command {
    /// Make a cache set of a cache device and a backing device.
    Format {
        /// The uuid of the cache set, not all zero.
        set: [u8; 16],
        /// The uuid of the cache device.
        cuuid: [u8; 16],
        /// The uuid of the backing device.
        buuid: [u8; 16],
        /// Sectors in a block: 1, 2, 4 or 8.
        block: u16,
        /// Sectors in a bucket: a power of two from 64 to 32,768.
        bucket: u16,
        /// The mode that the backing device is to name.
        mode: Mode,
        /// The sector of the backing device at which its data is to begin: 16 to 2^40.
        offset: u64,
    },
    /// Take two devices that another tool made ready into use.
    Adopt,
    /// Print what the superblocks say.
    Show,
    /// Say whether a pair is sound, and of a sound one what its buckets hold, if this is asked.
    Check(bool),
    /// Serve the requests of a trace.
    Serve(Options),
}

/// How a trace is served where there is a cache.
#[derive(Clone, Copy, Debug, PartialEq, Eq, Drop)]
pub struct Options {
    /// The mode, where it isn't to be that of the backing device's superblock.
    pub mode: Option<Mode>,
    /// From how many sectors in a row on a worker's requests go round the cache: at most 2^40.
    pub cutoff: u64,
    /// How many leaves of the index are kept in memory: 1 to 1,024.
    pub slots: u32,
}
