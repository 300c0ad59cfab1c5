//! What a step of a round makes of the buckets in hand.
ghost use Rattle.bc_mark.specs.Steps.{IsOver};
ghost use Rattle.bc_rounds.specs.Rounds.{HasBegun, HasDropped};

use bc_place::bc_machine::part::BucketsPart;

// A round is open, no bucket is touched, and nothing was found yet. Takes no memory.
pub(crate) fn begin_part(part: &mut BucketsPart)
    ensures { HasBegun part.old part.new }
{
    part.buckets.begin();
    part.round.walk.clear();
    part.round.going = true;
    part.round.next = 0;
}

// None is open, and nothing comes of what it found.
pub(crate) fn drop_part(part: &mut BucketsPart)
    ensures { HasDropped part.old part.new }
{
    part.round.going = false;
}

// None is open, and each bucket that wasn't touched has what the walk found. Takes no memory.
pub(crate) fn end_part(part: &mut BucketsPart)
    ensures { IsOver part.old part.new }
{
    part.round.going = false;
    if part.round.walk.found().len() != part.buckets.records().len() {
        return;
    }
    part.buckets.settle(&part.round.walk);
}
