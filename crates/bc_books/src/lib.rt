//! The books of buckets: where the last key of each sector points, what is known of each bucket of
//! the cache device, and how far a collection has come. It has definitions and laws, and nothing
//! that runs.
//!
//! A bucket may be written again only when nobody can ever read what is in it. Memory alone can't
//! tell. After a crash an older index holds, with the generations that an older entry names, and a
//! key that is live there must find what it always found. So there is one index for each number of
//! insertions, from the durable entry's on: that of memory is the last of them, and those that a
//! crash may leave are among them. What holds of a key in all of these holds before a crash and
//! behind it. A generation is a version that counts on for ever, since a byte that comes round
//! again says nothing; that the byte on the device tells the same is a law (`law_window`).
//!
//! The life of a bucket, from the walk that finds it free to its next use:
//!
//! * **A round begins and walks** (`Begin`, `Walk`): one leaf at a time, while keys still come. It
//!   notes where each sector points, and how many insertions hold the leaf's last key. A key that
//!   comes in (`Put`) marks its bucket and notes it as touched at once, since the walk may have
//!   gone by; so does a node that is new, and a chain.
//! * **It ends** (`End`) when each leaf was walked and the journal is durable up to what it saw. A
//!   key that was overwritten in memory is the last one still in what a crash leaves until then.
//!   Now the marks of buckets that nobody touched fall to what the walk found, and `last_gc` is the
//!   oldest version that a key still has for the bucket.
//! * **The bucket is raised** (`Raise`) where no mark, pin or hold forbids it, and where its oldest
//!   key is less than 96 versions behind. Each key into it is stale from now on, in memory. On the
//!   device it isn't: so the bucket waits on the raised list, and nobody may write it.
//! * **An entry names its new generation** (`SealChain`, `Sealed`): priority sets are written into
//!   buckets that were taken for them, the entry names the first one, and once it is durable no
//!   crash finds an older generation. The chain before it is kept until then, since a crash may
//!   still find that.
//! * **It goes to a list** (`ReadyChain`, `MakeReady`): the buckets of the new chain get the mark
//!   Metadata, those of the replaced one go back to the list priorities without a raise, since no
//!   key ever pointed there, and the raised bucket is on a reserve list or, where there is no room,
//!   nobody's again.
//! * **It is taken** (`Take`): open for data, or held by a seat for moved data, for a node or for a
//!   chain. In what is held for a node or a chain nothing is ever pinned: so that they stay apart
//!   from data needs no look at anybody's keys.
//! * **Its places are pinned** (`Pin`), each once between two raises. A candidate may keep them
//!   (`Keep`), and a key names them (`Put`). From then on they are nobody's: so what a key points
//!   to stays what it was, for as long as the key is live in anything that can be read.
//! * **It is full** (`Shut`), and then nobody's, until a round finds that its keys are gone.
//!
//! A bucket becomes a node's by `BeginNode`, when a seat writes its first set, and `MakeNode`, when
//! a tree with it is installed. `Regroup` gives the sectors to the new leaves, and `DropNode` gives
//! up old nodes.
//!
//! `specs/` has the state by its parts (`Index`, `Versions`, `Shelves`, `Marks`, `Chains`,
//! `Round`), the steps (`Books`), when each may be taken (`Enabled`), what it leaves (`After`, a
//! short function for each component), and the invariant as records over components (`Invariant`).
//! `laws` says what holds of every run, and that runs exist; `teeth` what goes wrong without a
//! condition.
//!
//! Left out is what only restricts the steps: the order and the length of lists, how many buckets
//! are open, priorities and their aging, sectors in use, and the ends of numbers. A machine that
//! has them takes fewer steps, and the laws hold of it.
#![tactic(auto)]

pub mod laws;
pub mod teeth;
