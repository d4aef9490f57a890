//! Laws of days that are left as they are.
ghost use Rattle.msr_making.specs.Resuming.{LeftDayIsStamped};

/// What `resume` takes for done is: the stamp that it goes by is of the records and of the report beside it, whatever crash
/// there was before, if the day had its own until then.
pub fn left_day_is_stamped()
    ensures { LeftDayIsStamped }
{}
