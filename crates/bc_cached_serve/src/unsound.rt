//! Where lines over a cache are stopped.

use bc_flush::bc_request::error::RequestError;

/// A line at which a run stopped, since it was refused for a cause that no answer says: a part of
/// the index was busy, or the index in memory is as that of no sound pair.
#[derive(Clone, Copy, Debug, PartialEq, Eq, Drop)]
pub struct Unsound {
    /// The line's number in the trace, counted from 1.
    pub line: u32,
    /// `Busy`, `Outside`, `Missing` or `Lost`.
    pub why: RequestError,
}
