//! The mode of a cache.

/// How requests are to use a cache.
#[derive(Clone, Copy, Debug, PartialEq, Eq, Drop)]
pub enum Mode {
    /// A write goes to both devices before it is answered.
    Writethrough,
    /// A write goes to the cache device, and to the backing device some time after its answer.
    Writeback,
    /// A write goes to the backing device alone, and a read may fill the cache.
    Writearound,
    /// Each request goes to the backing device alone.
    None,
}
