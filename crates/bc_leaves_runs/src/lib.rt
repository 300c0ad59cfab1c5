//! Runs of the leaves: that they compose, that there are some, and what each condition is for. It
//! has definitions and laws, and nothing that runs.
//!
//! A machine stops at any moment, and the next program opens what is left. It has an image, no
//! memory: of each node one of two contents, of the journal the durable entry or the sealed one.
//! `specs/Reopen` says which parts it makes of that: the leaves and the inner nodes that the tree
//! has, each as one that was read, and in each leaf the keys of all entries that count, cut to its
//! range and pending again, each with its entry's number. These fit (`law_reopen`), whatever the
//! crash left; so the laws of `bc_leaves` hold of the next run too, and of the one behind it
//! (`law_next_parts`).
//!
//! After an opening each node counts as read: nobody knows what stands behind its sets, so no set
//! goes there. A leaf's first change therefore ends in a new root, with a new node at each level.
//!
//! A law that speaks of no run says nothing. `specs/Example` says what a run has to show: a commit,
//! a split under a new root, a further set, a rewrite in the bucket that was given up, a merge, and
//! a root above the root. And a condition that nothing needs would only slow the program:
//! `specs/Teeth` has for each of six a run of that example, and a step for which all but that
//! condition holds, which the records refuse, since some of what a crash may leave would read
//! wrongly.
#![tactic(auto)]

pub mod laws;
pub mod teeth;
