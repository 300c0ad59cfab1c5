//! Whether a pair is sound, and what its buckets hold.
//!
//! A reader who doesn't trust a pair wants more than yes or no: what a bucket is used for, how much
//! of what it holds is the only copy, and whether a pointer lies so far behind its bucket that old
//! data might be shown. All of that follows from what a survey has read. Two things don't, and are
//! read for it: the blocks of the journal that a reader passes over, and the data that both devices
//! are to have.
#![tactic(auto)]

mod apart;
mod counts;
mod data;
pub mod laws;
mod lines;
mod pair;
mod read;
mod rows;
mod strays;
mod text;
mod totals;
mod verdict;
mod window;

pub use lines::{BucketLine, list_buckets};
pub use pair::{Report, check_pair, examine};
pub use text::{ReportText, report_text, tell_pair};
pub use totals::{Totals, count_sectors};
pub use verdict::{CheckError, Verdict};
pub use window::first_aged;
