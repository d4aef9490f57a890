//! Laws of segments, each the contract of a function that does nothing.
ghost use Rattle.std.specs.Prelude.{[]};
ghost use Rattle.msr_segments.specs.Segments.{HasDivision, HasOneDivision, HasOneListOfSegments};
ghost use Rattle.msr_segments.specs.Joining.{PushesGrowSegments, StepsArePushes, FollowersStandWithJoiners, OverrunsAreOutOfRange};
ghost use Rattle.msr_segments.specs.Cuts.{AreCuts, KeepsSegments, CutsBegin, CutsGoOn};

/// A list of rows has one division into segments.
pub fn rows_have_one_division()
    ensures some { HasDivision }
    ensures one { HasOneDivision }
    ensures segments { HasOneListOfSegments }
{}

/// Segments that are cut into rows are the segments of these rows, for every tolerance of at least a microsecond.
pub fn cuts_keep_segments()
    ensures { KeepsSegments }
{}

/// How a writer cuts segments row by row: a row begins a segment, or goes on where the last one ends.
pub fn cuts_grow_by_rows()
    ensures none { AreCuts [] [] }
    ensures begins { CutsBegin }
    ensures goes_on { CutsGoOn }
{}

/// What a follower says of a row is what a joiner at its place does with it; and a joiner's push makes the segments
/// of all rows grow.
pub fn steps_are_pushes()
    ensures steps { StepsArePushes }
    ensures pushes { PushesGrowSegments }
{}

/// After the same rows a follower and a joiner of one tolerance stand at the same place, so both
/// refuse the same rows as out of range.
pub fn followers_stand_with_joiners()
    ensures { FollowersStandWithJoiners }
{}

/// Which rows are out of range, as a condition on the division of all rows.
pub fn overruns_are_out_of_range()
    ensures { OverrunsAreOutOfRange }
{}
