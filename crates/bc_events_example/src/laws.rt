//! Runs of events that the laws speak of, each law the contract of a function.
ghost use Rattle.bc_events_example.specs.Example.{HasExample};
ghost use Rattle.bc_events_example.specs.Uses.{HasAllDeeds};

/// A sound opening with a cache and a run of events from it exist in which a write of a line goes
/// through the cache: its data is placed, its key is durable, and it is acknowledged as forced.
/// Before that a bucket was raised for it, and another chain and another root are durable.
///
/// At its end it meets the premise of the law on crashes, and it is closed; no two seats are of one
/// worker.
pub fn example_exists()
    ensures { HasExample }
{}

/// A sound opening with a cache and a run of events from it exist in which there is an event of
/// each kind.
pub fn each_deed_exists()
    ensures { HasAllDeeds }
{}
