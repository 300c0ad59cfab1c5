//! What a crash leaves of data, at every state of every run of `bc_data`.
//!
//! A crash leaves of each device, for each sector, the value that it reads or one that was written
//! since the last barrier, and of the index what the newest durable entry holds. These three may be
//! of different times. What they show together must be allowed all the same: not older than what an
//! acknowledged flush, or a forced write of the sector, covers.
//!
//! So each sector has a table: for each length of the history, how many insertions an index must
//! hold to answer for a flush at that point (`need`), and whether the backing device is as firm as
//! that (`safe`). A write through the cache raises what is needed; a write around it makes the
//! backing device unsafe until a barrier. A flush may end when what is durable answers for it, for
//! every sector. And what an index shows is allowed to each flush that it answers for. That is the
//! invariant (`specs/Invariant`), over every index from the durable one on, so that it doesn't
//! matter which of them a crash finds.
//!
//! The floor of a history counts the flushes that are acknowledged at its end; the invariant counts
//! each as it is done (`specs/Reached`), which is at least as much.
//!
//! `laws` says that whatever a crash leaves shows allowed values, that both devices agree where a
//! key is live and clean (so that a clean key may go at any time, and a clean bucket be given up),
//! and that after a closing each sector shows its last write. `teeth` has runs that break this
//! where one condition is left out.
#![tactic(auto)]

pub mod laws;
pub mod teeth;
