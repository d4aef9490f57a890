//! What a task that was done ends with.
ghost use Rattle.std.specs.Prelude.{◌≡◌};
ghost use Rattle.msr_command.specs.Ends.{done_of_walk, status_of_done};

use msr_compare::Comparison;
use msr_folders::WalkFound;
use msr_options::Unopened;
use msr_verdict::Verdict;

/// What a task that was done ends with.
#[derive(Clone, Copy)]
pub(crate) enum Done {
    /// Everything was written.
    Written,
    /// Records and report were written; `in_turns` says whether channels seem to alternate.
    Repacked {
        in_turns: bool,
    },
    /// A verdict was printed.
    Checked(Verdict),
    /// An answer was printed.
    Compared(Comparison),
    /// An archive was walked to its end; `refused` says whether an entry was refused or not verified, or there was none
    /// to verify, and `no_day` whether the whole archive has no day; `unopened` what could not be opened of the first day
    /// that was refused for that.
    Walked {
        refused: bool,
        no_day: bool,
        unopened: Option<Unopened>,
    },
}

impl Done {
    /// What a walk ends with that went through the whole archive, or a part of it, and if `wants_day` is refused if the
    /// whole archive has no day.
    pub(crate) fn of_walk(
        found: WalkFound,
        unopened: Option<Unopened>,
        is_whole: bool,
        wants_day: bool,
    ) -> Done
        ensures { result ≡ done_of_walk unopened is_whole wants_day found }
    {
        let (refused, no_day) = match found {
            WalkFound::Well => (false, false),
            WalkFound::Unwell => (true, false),
            WalkFound::NoDay => (wants_day && is_whole, is_whole),
        };
        Done::Walked {
            refused,
            no_day,
            unopened,
        }
    }

    /// The exit status of a program that ends so.
    pub(crate) fn status(&self) -> u8
        ensures { result ≡ status_of_done self.now }
    {
        match self {
            Done::Written | Done::Repacked { .. } => 0,
            Done::Checked(verdict) => verdict.status(),
            Done::Compared(comparison) => comparison.status(),
            Done::Walked { refused, .. } => { if *refused { 1 } else { 0 } }
        }
    }
}
