//! The tree of a cache at the level of the parts that a program holds: leaves with their pending
//! keys, inner nodes, the journal, and one change of the tree under way. It has definitions and
//! laws, and nothing that runs.
//!
//! `bc_meta` says when a set, an entry or a root may be written, and it says so of everything that
//! a crash may leave: whatever the nodes then read as, the tree with the entries has to say what
//! the index says. No program can test that. What it can test is what it has in its hands, and this
//! crate says what has to be asked of that, and proves that it is enough. So its machine makes only
//! runs of `bc_meta`, and `bc_meta`'s laws hold of them.
//!
//! A key comes into a leaf (`Insert`), where it is *pending* until a set of the leaf has it, with
//! the number of the entry that will hold it; in the journal it *waits*. An entry takes all that
//! waits (`Seal`). It may give up older entries, but none that holds a pending key: until a set has
//! that key, the entry alone has it. Once its entry is durable, a *further set* may take the leaf's
//! pending keys (`WriteSet`): all of them, those without pointers too, since one that is missing
//! would let an older set speak again. A write that fails leaves a set that stands or not, for
//! good: nothing goes behind it, and the keys stay pending.
//!
//! A leaf that is full is split, one that is read from the device is rewritten, small ones are
//! merged, and the root may get a root above it. All these are one *change*: some leaves go, others
//! come that have the same sectors and say the same of them, and inner nodes with them.
//!
//! * New nodes are written first (`NewLeaf`, `NewInner`). They are drafts that nothing names, so a
//!   crash loses nothing with them.
//! * The change **begins** (`BeginChange`) when they are stable, and when each key of the leaves
//!   that go is durable. From then on these take no key.
//! * It is **made** by one write: a further set of a parent (`SetParent`), or an entry with a new
//!   root (`SealRoot`). A crash finds the old tree or the new one. So what makes it has to leave no
//!   node that stays a child that goes, and until it is stable both trees have to read right.
//! * Then it is **installed** (`Install`), and what it took away is given up. If the write of the
//!   parent's set failed, either tree may be read for good: no more comes of the change.
//!
//! Read `specs/` in this order: Keys (what lists of keys say), Parts, Rows, Events, After (what an
//! event leaves), Enabled (when it may happen), Fits (the invariant: between the parts and the
//! records), Laws, Frame. `laws` says what holds of every run. That runs compose and exist, and
//! what goes wrong without a condition, is in `bc_leaves_runs`.
//!
//! Left out are room in buckets and in nodes, sequence numbers of sets, and chains of priority
//! sets: `bc_meta` has these as conditions of its own. One change is under way at a time, and the
//! root is an inner node, never a leaf.
#![tactic(auto)]

pub mod laws;
