//! Openings and runs that the laws of what seats know speak of, each law the contract of a
//! function.
ghost use Rattle.bc_known_example.specs.Example.{HasExample, HasOpening};
ghost use Rattle.bc_known_example.specs.Uses.{HasAllActs};

/// An opening exists that is sound, and whose buckets lie as a seat counts on it.
pub fn opening_exists()
    ensures { HasOpening }
{}

/// A sound opening and a run from it exist in which seats do only what they can test: data is
/// written through the cache and durable, a forced write is acknowledged, a bucket is raised and
/// another chain is durable and ready, another root is durable over a leaf that gets a further
/// set, and it ends with a write that fails and a barrier that comes late.
///
/// What a crash may leave of it meets the premise of the law on crashes.
pub fn example_exists()
    ensures { HasExample }
{}

/// A sound opening and a run from it exist in which each kind of act is done: each that a seat may
/// do, and of each write that is done well each kind of what is written.
pub fn each_act_exists()
    ensures { HasAllActs }
{}
