//! What a walk found.
ghost use Rattle.msr_folders.specs.Found.{Finds};

/// What a walk found that came to its end.
#[derive(Clone, Copy)]
pub enum WalkFound {
    /// Days, and nothing that is to be looked at.
    Well,
    /// Something that is to be looked at.
    Unwell,
    /// No day, and nothing but what was skipped.
    NoDay,
}

impl WalkFound {
    /// What a walk found with so many entries that are to be looked at, and so many days that are well.
    pub fn of(unwell: u64, days: u64) -> WalkFound
        ensures { Finds unwell days result }
    {
        if 0 < unwell {
            WalkFound::Unwell
        } else if days == 0 {
            WalkFound::NoDay
        } else {
            WalkFound::Well
        }
    }
}
