//! The inner nodes of the index: where its leaves stand.
//!
//! An inner node has the keys of its children, by the ends of their ranges. The range of a child
//! begins where that of the one before ends, so a key has to say no more than an end, and children
//! in order cover the range of their node without a gap. That is why a key of a child lies outside
//! where its end does, and why its size, which is the length of the child's node, plays no part.
//!
//! A change of the tree is made by one write: a further set of the parent, whose keys take the
//! place of those with the same ends, and take children away where they have no pointer. Until it
//! stands, the old children count; so the children in memory are changed apart from the write, once
//! nothing can bring the old ones back.
//!
//! A leaf is another type: its keys are found by range, one may hide a part of another, and it keeps
//! what is in no set yet. Nothing of that is so here, and no law would speak of both.
#![tactic(auto)]

mod children;
mod inner;
mod ranges;

pub use inner::Inner;

#[cfg(test)]
mod tests;
