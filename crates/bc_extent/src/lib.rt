//! The extent map: for each sector of a backing device the newest key that covers it. Newer keys cut
//! older ones, so that the keys stand in order without overlaps.
#![tactic(auto)]

mod carry;
mod change;
mod extents;
mod gap;
pub mod laws;
mod places;
mod ring;
mod rows;
mod sides;
mod slot;
mod slots;

pub use extents::Extents;
