//! What a measurement gives.
use std::time::Duration;

/// A number that tells what was done from others, and how long it took.
#[derive(Drop)]
pub struct Measured {
    pub sum: u64,
    /// Processor time.
    pub spent: Duration,
}

impl Measured {
    /// What was done between these times.
    pub fn new(sum: u64, begun: Duration, ended: Duration) -> Measured {
        let spent = ended.checked_sub(begun).unwrap_or(Duration::ZERO);
        Measured { sum, spent }
    }
}
