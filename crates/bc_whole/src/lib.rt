//! The whole machine of the cache: what seats do with data, what the metadata of the cache device
//! may read as, and the parts of it that a program holds, in one state and one list of acts. It has
//! definitions and laws, and nothing that runs.
//!
//! Each machine below has a law of its own, and none of them is enough. `bc_crash` says that what
//! the index of some entry shows is allowed, but not that a crash finds that entry. `bc_meta` says
//! that an entry is found, with the tree below its root and the chain that it names, but not that
//! what these say is the index. `bc_leaves` says which parts allow that, but knows neither data nor
//! buckets. Only together do they say what somebody who opens the devices after a crash wants to
//! know: *read byte by byte, they show values that the history allows, the two devices agree where
//! a key is live and clean, and all of it is a sound pair again* (`law_crash`). So runs compose, one
//! after each crash, for ever.
//!
//! For that the machines must do the same things. An act is a row of a table (`specs/Together`):
//! what it is to the data with its books, and what it is to the metadata with the parts. The two
//! columns make the same call of the cache device, or none; what they seal is one entry; and keys
//! that come in say the same of each sector. From that follows what the state has twice
//! (`specs/Linked`): one device, one stage of the sealed entry, one index at the durable, the sealed
//! and the present insertion, one chain with its generations. The data counts generations on for
//! ever, and the device has them modulo 256: that a reader's test on bytes is the test on versions
//! is the window of the books, which nobody here has to ask for.
//!
//! One fact ties buckets to the tree: where a crash may find a node, the books know of one
//! (`KnowNodes`). So a bucket that may be raised is no node's, in memory and in whatever a crash
//! leaves (`law_raise`), and a next opening finds its nodes marked.
//!
//! A law that speaks of no run says nothing: `specs/Example` has one that ends with a bucket raised,
//! another chain ready, a new root and a failed write, and `specs/Uses` one that does every kind of
//! act. `teeth` leaves out what ties the columns of an act, and a law breaks.
//!
//! `specs/` has the state and the acts (`State`), the table (`Together`), when an act may be done and
//! what it leaves (`Run`), what the machines share (`Linked`), and what holds of every run (`Laws`).
//! What a record is, and what the codecs owe, is in `bc_meta`: no proof here sees a byte.
#![tactic(auto)]

pub mod laws;
pub mod teeth;
