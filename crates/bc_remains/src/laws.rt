//! What the definitions come to: each law is the contract of a function.
ghost use Rattle.bc_remains.specs.Example.{HasExample};
ghost use Rattle.bc_remains.specs.Laws.{LawApart, LawCrash, LawFormatted, LawNext};
ghost use Rattle.bc_remains.specs.Laws.{LawNoStray, LawOpened, LawOne};

/// In each image that a crash may leave a reader finds the entries that are durable, or those of
/// the sealed one, and the tree and the chain that they name; each sector's key says what the index
/// says, and the generations are those that the chain means.
///
/// The premise is that no torn record matches by chance: a whole entry that is read was read there at
/// the opening, or was written there; and a whole set that is read in a place in which a set was
/// under way can't be torn, or was written there.
pub fn law_crash()
    ensures { LawCrash }
{}

/// Each such image is opened again as what a reader finds there, so runs compose.
pub fn law_next()
    ensures { LawNext }
{}

/// Each sound pair with a cache is an opening of the machine, which means what is read of the pair,
/// and of one reading all openings say the same. Each pair that was made anew is opened.
pub fn law_opened()
    ensures opened { LawOpened }
    ensures one { LawOne }
    ensures formatted { LawFormatted }
{}

/// No entry that counts stands in such an image elsewhere than where it is read, where none did at
/// the opening: so none can come to count later.
pub fn law_no_stray()
    ensures { LawNoStray }
{}

/// In each such image a bucket has one use at most of those of which metadata tells, each node lies
/// whole in its bucket, and as many buckets as a chain takes have no such use.
pub fn law_apart()
    ensures { LawApart }
{}

/// There is such a run, over the bytes of a device that was made anew: it writes a second entry,
/// and each image that a crash may leave behind it is read with that entry as its newest.
pub fn example()
    ensures { HasExample }
{}
