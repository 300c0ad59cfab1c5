//! The tree of a pair, as an opening has it.
//!
//! What a survey keeps of the index are its last keys, and of each node where it stands: it has read
//! the sets of all nodes, and let them go again, since an index may have more of them than there is
//! memory for. A machine that serves goes from the root down, so it needs the inner nodes in memory,
//! with their children. They are few, one for some hundred leaves, and are read here once more, each
//! by one call. Which leaf has which number is settled here too: a crash forgets the numbers, and
//! they are given anew, from 0 on in the order of the leaves' ranges.
#![tactic(auto)]

mod load;
mod tree;

pub use tree::tree_of;
