//! What seats do with data: over two devices and over the books of `bc_books`, of which this crate
//! keeps nothing twice. It has definitions and laws, and nothing that runs.
//!
//! A sector's value lies at one of two places, and which one may change while others read and
//! write. So each answer must be what the last write before it gave, though the seat that answers
//! looked some time ago, and the index, the bucket and the device have gone on since. There is one
//! history of all seats, and the point of each write in it is the act that makes it seen.
//!
//! The life of a write, from its claim to a crash:
//!
//! * **The seat pins places and writes there** (`PinPlaces`, `CacheWrite`). Nobody else may write
//!   them, and no live key names them (a law of the books): so whatever is read meanwhile is of
//!   others.
//! * **It claims its sectors alone** (`MakeClaim`). Two claims of which one is exclusive have no
//!   sector in common; so nobody answers about these sectors, moves or cleans them, until the claim
//!   ends. Candidates that wait for a key there are killed: they hold what is about to be old.
//! * **Its keys come in** (`InsertWrite`): dirty ones, each to the place that has the sector's
//!   value. This is the write's point in the history. In memory it stands from now on; after a
//!   crash it does once the entry that holds the insertion is durable.
//! * **An entry is sealed, and a barrier comes before it is written** (`Stage`). Without that a
//!   crash could find keys to places that hold what they held before. Behind the entry another
//!   barrier comes, and then it is durable.
//! * **A flush or a forced write says so** (`Say`): where as many insertions are durable as there
//!   were, and a barrier of the backing device came behind all that was written around the cache.
//!   One without the other isn't enough (`bc_crash`'s teeth).
//! * **It is written back** (`BackingWrite Copy`) by a seat that holds a claim and read the value
//!   between two looks, under keys of which the first look's insertions are durable: so a crash
//!   that finds an older index doesn't show what the copy went over. When a barrier of the backing
//!   device came behind it the keys become clean (`CleanKeys`). From then on both devices have the
//!   value, in memory and after a crash, and the bucket may be raised at any time.
//! * **It is moved, dropped or forgotten** (`MoveKeys`, `DropKeys`, `StaleKeys`). A move goes
//!   through places that the seat pinned, as a write does, and only if the key is still the one
//!   that was seen.
//!
//! The first two may come in either order: neither a pin nor a write to pinned places asks for a
//! claim, and a claim asks for no places. The third asks for both. `bc_events` tells a write that
//! claims first.
//!
//! A write that goes around the cache (`BackingWrite Around`) has its point in the history when the
//! device has it. So nothing may be keyed there, in any index that a crash may find: none was seen
//! and that is durable, or the keys were dropped and that is durable. A run that uses the backing
//! device alone has no keys at all.
//!
//! What was read from the backing device may be kept as a candidate (`NoteCandidate`), whose keys
//! come in later (`Settle`), if no exclusive claim came between and a barrier did.
//!
//! An answer (`Say Answer`) gives what was read from the backing device where it has what is shown,
//! or what was read from the cache if the bucket's version is still that of the look: the version
//! rises with each use of the bucket, so a read that came too late is known by it.
//!
//! A device call that fails halts (`Fail`). From then on each other seat may have one call more,
//! which was under way, and nothing else comes but what lets go. A failed write may have been done,
//! in part or not at all; it stands in the history as tried.
//!
//! `specs/` has what a seat knows (`Seats`), the state and the acts, grouped by what they change
//! (`Data`), when each may be done (`Enabled`), what it leaves (`After`, a short function for each
//! component), and the invariant as records over components (`Invariant`). `laws` says what holds
//! of every run, and that runs exist; `teeth` what goes wrong without a condition. What a crash
//! leaves is in `bc_crash`.
//!
//! A write of metadata is here only what keeps it apart from data. Lines of requests that do more
//! than this, and the ends of numbers, are left out: they restrict the acts, and the laws hold of
//! fewer.
#![tactic(auto)]

pub mod laws;
pub mod teeth;
