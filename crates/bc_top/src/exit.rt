//! What a call leaves.

use bc_book::pass::Pass;
use bc_output::status::Status;

/// How a call ended, and the devices that it was given.
#[derive(Drop)]
pub struct Exit<C, B> {
    pub status: Status,
    pub cache: C,
    pub backing: B,
    /// What the run did, where one began.
    pub pass: Option<Pass>,
}
