//! What a seat holds stays its own. It has laws, and nothing that runs.
//!
//! A seat that writes to the cache device gives its parts back between the steps: it pins a place,
//! and while it writes there others take buckets, raise them and insert keys. Its write is right
//! only if the place is still its own when the keys that name it come in, and if the bucket has the
//! generation that the pointer will say. The same goes for a bucket that it took for a node or a
//! priority set, and wrote before an entry names it. That it is so follows from nothing that the
//! seat does, but from what every other seat may not do: a bucket with a pin isn't raised, a key
//! names only its own seat's places, and only the holder lets a bucket go.
//!
//! Read `specs/Laws`.
#![tactic(auto)]

pub mod laws;
