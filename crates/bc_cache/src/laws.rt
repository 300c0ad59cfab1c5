//! What the definitions come to: each law is the contract of a function.
ghost use Rattle.bc_cache.specs.Copies.{CopyIsPending, CopyIsRead, ReadFollows, StaysCopy, TornIsRead};
ghost use Rattle.bc_cache.specs.Stands.{AddedStands, LoadedStands, NothingIsLost};

/// A leaf that was read is what the device has, and one to which keys were added is that followed
/// by what is pending.
pub fn a_leaf_is_what_is_read_and_pending()
    ensures loaded { LoadedStands }
    ensures added { AddedStands }
{}

/// A leaf of which nothing is pending has the last keys of the sets that a reader finds: so it can
/// go, and the one that is read instead shows the same.
pub fn nothing_is_lost_with_a_leaf_that_goes()
    ensures { NothingIsLost }
{}

/// Whatever was done to a leaf since it was read or made, it is a copy of what the device has:
/// while keys are added, what is pending is appended, the leaf is rewritten elsewhere, and other
/// sectors are written.
pub fn a_leaf_stays_a_copy()
    ensures { StaysCopy }
{}

/// A copy has the last keys of the sets that a reader finds, followed by its pending keys; so has a
/// leaf that is read there and gets these. The same holds once the write of a further set failed,
/// where no torn set matches by chance.
pub fn a_copy_is_what_is_read_and_pending()
    ensures read { CopyIsRead }
    ensures pending { CopyIsPending }
    ensures again { ReadFollows }
    ensures torn { TornIsRead }
{}
