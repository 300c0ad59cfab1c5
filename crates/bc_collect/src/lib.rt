//! What collections give, over every run of the books of `bc_books`.
//!
//! A cache that never gives a bucket wrongly may still give none. So here stands what keeps it
//! going.
//!
//! * **Collection is complete** (`Collect`): after a round that nobody disturbed, a bucket is
//!   reclaimable where no use forbids it, and nowhere else. Marks rise at once and fall only at a
//!   round's end, so a mark may stand too long, but not beyond such a round. And whatever others do
//!   meanwhile, a bucket that could be had all the time of a round, and that nobody touched, may be
//!   raised at its end: so a request that still finds no bucket then had none to find.
//! * **There is room for a next chain** (`Spare`): raised buckets come to a list only through an
//!   entry that names a new priority chain, so without the buckets for one no bucket would ever be
//!   given again. At every moment whatever a crash leaves has as many buckets without use as a
//!   chain asks for. While an entry with a new chain isn't durable these are the new chain's; once
//!   it is, they are the old one's. In memory as many are on the list priorities, or held for a
//!   chain: a replaced chain's buckets go back there at once, without a raise, and so do those that
//!   a seat took and lets go.
//! * **Runs compose** (`Next`): what a crash leaves is a sound opening again, whichever of the two
//!   entries it found, whatever nodes its tree has among those that stood or were held, and however
//!   the lists are filled from what is without use.
#![tactic(auto)]

pub mod laws;
