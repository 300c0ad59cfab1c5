//! What a seat knows is enough: the acts of the whole machine with the conditions that a program
//! can test. It has definitions and laws, and nothing that runs.
//!
//! `bc_whole` joins machines, and its acts ask what each of them asks. A writer of data would have
//! to know that no node lies in its bucket, and no bucket of a chain; somebody who writes a priority
//! set, that no leaf does; who lets a bucket go, that it isn't kept for the next chain. A program
//! that had to test this would take every part for each of its steps, one after the other, and
//! sixteen workers would be one.
//!
//! It needn't. A bucket stands in one place only (`bc_books`): on a list, open for data, held by a
//! seat for one purpose, or nobody's. Nodes lie only where the books know of one, and chains in
//! what is held for them, so from where its bucket stands a seat knows what else isn't there
//! (`specs/Known`, the facts that this rests on). Each act asks only of the parts in its seat's
//! hand, of the seat's own acts before, and of lasting facts (`specs/Asked`); and every run of such
//! acts is a run of the whole machine (`law_whole`), whose laws therefore hold of it: answers
//! (`law_now`), crashes (`law_crash`), what may be raised (`law_raise`), and that each pair that a
//! crash leaves is sound again in this machine's own terms, so that runs compose (`law_next`).
//!
//! What is asked still of more than a hand: whoever begins a change of the tree, installs it, or
//! writes a new node holds the Spine, and asks of all slots. Whoever seals an entry asks of each
//! leaf that no pending key is of an entry that is given up; that is a lasting fact of each leaf,
//! which a seat may learn leaf by leaf. A new node's first set is written with zeros over the rest of
//! the node, and has a seq that none had in this run: so sets that were left behind it from other
//! runs can't count, and nobody asks what stood there.
//!
//! Read `specs/` in this order: Acts, Asked, Run, Known, Laws.
#![tactic(auto)]

pub mod laws;
