//! The events of a run: one table that says of each what it is to the whole machine.
//!
//! `bc_known` has the whole cache as one machine, whose acts ask only what a seat can test. Its
//! acts are small, so that each invariant is kept by few of them: a bucket is let go, a key comes
//! in, a set is written. A seat commits larger steps, each at one moment: putting a written piece
//! into its leaf is the point of the write in the history, sealing an entry may begin a journal
//! bucket and a change of the tree, and installing a change makes some buckets nodes and gives
//! others up. Such a step is an event here, and `specs/Acts` says in a row of one table of which
//! acts it consists, with keys and generations as the records of the devices have them: the byte of
//! a pointer stands for the greatest version of its bucket that has it. An event may be done where
//! its acts may be done one behind the other; nothing else is to be said of it, and the laws of the
//! machine hold.
//!
//! A write by this table, from its claim to a crash: the seat claims its sectors alone (`Claim`),
//! so that nobody reads or copies them meanwhile; pins fresh places (`Pin`) and writes them
//! (`CacheWrite`), where nothing points yet, so that a crash shows what was there before; and puts
//! its keys into the leaf (`InsertWrite`). From here on each read finds the new values, and a crash
//! the old ones, until an entry with the keys is durable: `Seal`, a barrier, so that the entry
//! never names what isn't stable, its write, a barrier, `Sealed`. Then a flush that began before
//! may be acknowledged (`FlushDone`).
//!
//! A collection, from its first walk to the reuse of a bucket: `Mark` begins a round, walks each
//! leaf and ends it, by which marks fall that no key holds up any more. A bucket without a mark is
//! given a new generation (`Raise`), so that old keys of it are stale, but it isn't written yet:
//! after a crash the old generation might be read again, and the old keys would show what is new.
//! So its generation is written in a chain of priority sets, an entry names the chain (`Seal`), and
//! once that is durable the bucket goes to a list (`Ready`), is taken (`Take`) and pinned.
//!
//! A run over the backing device alone is one of these events too, in which every act is one of the
//! data alone; it needs no more than that nothing is cached.
//!
//! Read `event`, then `specs/` in this order: Acts, Run, Laws.
#![tactic(auto)]

pub mod event;
pub mod laws;
