//! Laws of what a walk leaves.
ghost use Rattle.msr_walk.specs.Staying.{ToldDayStays, UnvisitedDayStays};

/// What a walk told of a day is so when it ends, if the day was not visited once more; and what was made before of a day that
/// it does not visit is still there.
pub fn days_stay()
    ensures told { ToldDayStays }
    ensures unvisited { UnvisitedDayStays }
{}
