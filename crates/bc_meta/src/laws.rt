//! What the definitions come to: each law is the contract of a function.
ghost use Rattle.bc_meta.specs.Laws.{LawCrash, LawNext, LawZeros, LawOnlyTorn};
ghost use Rattle.bc_meta.specs.Laws.{LawUntouched, LawChain};
ghost use Rattle.bc_meta.specs.Example.{HasExample, NeedsBarrier, NeedsReady, NeedsZeros};

/// At every state of every run from a sound opening, and in each image that a crash may leave:
/// each node reads as one of two contents, where it is known; the entries found are those up to
/// the durable number, or up to the sealed one; below the newest one's root the tree is whole,
/// each pointer leads to what is read, and with the entries it says what the index says; the
/// chain that the entry names reads whole as the generations that it means, and as many buckets
/// are spare.
///
/// The premise is that no torn record matches by chance: what is read as a whole entry stood there
/// at the opening, or was written there; and what is read as a whole set in a place in which a set
/// was under way can't be torn, or was written there.
pub fn law_crash()
    ensures { LawCrash }
{}

/// Each such image is a sound opening again, so runs compose.
pub fn law_next()
    ensures { LawNext }
{}

/// Whatever stood in its bucket, and without the premise: behind the sets of a node that the run
/// wrote, and behind one of which no barrier tells yet whether it stands, a crash leaves zeros.
pub fn law_zeros()
    ensures { LawZeros }
{}

/// The premise on sets is one on torn sets alone: where a crash can tear no sector, it holds by
/// itself.
pub fn law_only_torn()
    ensures { LawOnlyTorn }
{}

/// No bucket of a chain is written from the seal that names it until it is given up.
pub fn law_untouched()
    ensures { LawUntouched }
{}

/// A chain that is read is one of sets that lead on, as many as a chain has, and each such chain
/// is read.
pub fn law_chain()
    ensures { LawChain }
{}

/// There is a layout with facts, a sound opening, and a run for which all premises hold: it
/// writes a chain and a new leaf, with writes that fail, makes an entry durable that names both,
/// gives up the old ones, adds a set to the leaf, and uses a bucket of the old chain again. A set
/// with the leaf's seq stood in its bucket before.
pub fn example_exists()
    ensures { HasExample }
{}

/// Three of the rules are needed. An entry that is written before the barrier behind its seal, and
/// a bucket of a chain that is written before the chain is given up, each leave an image in which
/// the entry that is found doesn't read. And a first set that is written without zeros behind it
/// leaves one in which its node has a set that was there before.
pub fn rules_are_needed()
    ensures barrier { NeedsBarrier }
    ensures ready { NeedsReady }
    ensures zeros { NeedsZeros }
{}
