//! The names that the files of a day have.
ghost use Rattle.std.specs.Prelude.{◌≡◌, IfOk, string_bytes};
ghost use Rattle.msr_sds.specs.SdsPath.{ReadsAsDay, SdsPath};
ghost use Rattle.msr_exchange.specs.Names.{AreNames, IsSide, OtherDaysAreApart, folder_at, path_at};
ghost use Rattle.msr_exchange.specs.Work.{AreThreeFolders, names_in};

use crate::work::DayWork;
use msr_tree::folder_above;
use std::alloc::{AllocError, Global};
use std::marker::Model;

/// A name that a file of the day may have. What is in its making has a name beside its own, with `Part`.
#[derive(Clone, Copy, PartialEq, Eq)]
pub enum Place {
    /// ROOT/PATH
    Day,
    DayPart,
    /// ASIDE/PATH
    Original,
    OriginalPart,
    /// OUT/PATH
    Records,
    RecordsPart,
    /// ASIDE/PATH.touch-time, an empty file with the time that the records were given, if that is not their file's.
    Note,
    NotePart,
}

/// One of ROOT, ASIDE and OUT, and what a day has there.
#[derive(Drop)]
pub(crate) struct Side {
    pub(crate) top: String,
    pub(crate) folder: String,
    pub(crate) file: String,
    pub(crate) part: String,
}

impl Side {
    fn new(alloc: Global, top: &str, path: &str, name: &str) -> Result<Side, AllocError>
        ensures { IfOk result (IsSide top.now path.now name.now) }
    {
        let folder = folder_above(path);
        let file = format!(in alloc; "{top}/{path}")?;
        let part = format!(in alloc; "{top}/{folder}/{name}")?;
        let folder = format!(in alloc; "{top}/{folder}")?;
        let top = String::from_str(alloc, top)?;
        Ok(Side {
            top,
            folder,
            file,
            part,
        })
    }
}

/// The names of a day's files, and the folders in which they stand.
#[derive(Drop)]
pub struct DayNames {
    pub(crate) root: Side,
    pub(crate) aside: Side,
    pub(crate) out: Side,
    pub(crate) note: String,
    pub(crate) note_part: String,
}

impl Model for DayNames {
    ghost use Rattle.std.specs.String.{string_bytes};
    ghost use Rattle.msr_exchange.specs.Names.{Names};

    ghost Value = { Names };

    ghost view = { λ names. record {
      day = string_bytes names.root.file;
      day_part = string_bytes names.root.part;
      original = string_bytes names.aside.file;
      original_part = string_bytes names.aside.part;
      records = string_bytes names.out.file;
      records_part = string_bytes names.out.part;
      note = string_bytes names.note;
      note_part = string_bytes names.note_part;
      root = string_bytes names.root.folder;
      aside = string_bytes names.aside.folder;
      out = string_bytes names.out.folder;
    } };
}

impl DayNames {
    /// The names of the day with this path from ROOT.
    pub fn new(work: &DayWork<'_>, path: &str) -> Result<DayNames, AllocError>
        requires apart { AreThreeFolders work.now }
        requires day { (day : SdsPath) × ReadsAsDay path.now day }
        ensures names { IfOk result (λ names. names ≡ names_in work.now path.now) }
        ensures are { IfOk result AreNames }
    {
        let alloc = work.alloc;
        let (top, folder) = (work.aside, folder_above(path));
        let root = Side::new(alloc, work.root, path, ".msrepack-replace.day")?;
        let aside = Side::new(alloc, top, path, ".msrepack-replace.original")?;
        let out = Side::new(alloc, work.out, path, ".msrepack-replace.records")?;
        let note = format!(in alloc; "{top}/{path}.touch-time")?;
        let note_part = format!(in alloc; "{top}/{folder}/.msrepack-replace.note")?;
        Ok(DayNames {
            root,
            aside,
            out,
            note,
            note_part,
        })
    }

    /// The path of a name.
    pub fn at(&self, place: Place) -> &str
        ensures { result.now ≡ path_at self.now place }
    {
        match place {
            Place::Day => self.root.file.as_str(),
            Place::DayPart => self.root.part.as_str(),
            Place::Original => self.aside.file.as_str(),
            Place::OriginalPart => self.aside.part.as_str(),
            Place::Records => self.out.file.as_str(),
            Place::RecordsPart => self.out.part.as_str(),
            Place::Note => self.note.as_str(),
            Place::NotePart => self.note_part.as_str(),
        }
    }

    fn side(&self, place: Place) -> &Side
        ensures { string_bytes result.now.folder ≡ folder_at self.now place }
    {
        match place {
            Place::Day | Place::DayPart => &self.root,
            Place::Original | Place::OriginalPart | Place::Note | Place::NotePart => &self.aside,
            Place::Records | Place::RecordsPart => &self.out,
        }
    }

    /// The path of the folder in which it stands.
    pub(crate) fn folder(&self, place: Place) -> &str
        ensures { result.now ≡ folder_at self.now place }
    {
        self.side(place).folder.as_str()
    }

    /// The path of the one of ROOT, ASIDE and OUT in which it stands.
    pub(crate) fn top(&self, place: Place) -> &str {
        self.side(place).top.as_str()
    }
}

/// A law: of the names that change when the files of a day change places none is another day's.
pub fn other_days_are_apart()
    ensures { OtherDaysAreApart }
{}
