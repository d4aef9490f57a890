//! What a day needs on a walk.
ghost use Rattle.msr_folders.specs.Within.{IsSeparate};
ghost use Rattle.msr_options.specs.Tasks.{StandApart};

use msr_options::Archiving;
use msr_tree::Time;
use std::alloc::Global;

/// Memory, what other processes have to do with a walk, and what is asked for.
#[derive(Drop)]
pub(crate) struct Walker<'a, C> {
    pub claims: &'a C,
    pub alloc: Global,
    pub archive: &'a Archiving<'a>,
    /// When the walk began.
    pub begun: Time,
    ghost apart: { StandApart archive.now.folders },
    ghost separate: { IsSeparate archive.now.folders.root.now archive.now.folders.out.now archive.now.folders.reports.now },
}
