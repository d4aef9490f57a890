//! The names of a day's files.
ghost use Rattle.std.specs.Prelude.{◌≡◌};
ghost use Rattle.msr_naming.specs.Naming.{name_path};

use std::marker::Model;

/// The name that a file gets, and the one beside it under which it is made.
#[derive(Drop)]
pub struct NewName {
    pub path: String,
    pub part: String,
}

impl Model for NewName {
    ghost use Rattle.std.specs.String.{string_bytes};
    ghost use Rattle.msr_naming.specs.Files.{FileNames};

    ghost Value = { FileNames };

    ghost view = { λ name. record {
      path = string_bytes name.path;
      part = string_bytes name.part;
    } };
}

/// The files that are made of a day.
#[derive(Drop)]
pub struct DayFiles {
    pub records: NewName,
    pub report: NewName,
    pub stamp: NewName,
}

/// A name that a file of a day may have. What is in its making has a name beside its own, with `Part`.
#[derive(Clone, Copy)]
pub enum Name {
    Records,
    RecordsPart,
    Report,
    ReportPart,
    Stamp,
    StampPart,
}

impl DayFiles {
    pub(crate) fn at(&self, name: Name) -> &str
        ensures { result.now ≡ name_path self.now name }
    {
        match name {
            Name::Records => self.records.path.as_str(),
            Name::RecordsPart => self.records.part.as_str(),
            Name::Report => self.report.path.as_str(),
            Name::ReportPart => self.report.part.as_str(),
            Name::Stamp => self.stamp.path.as_str(),
            Name::StampPart => self.stamp.part.as_str(),
        }
    }
}
