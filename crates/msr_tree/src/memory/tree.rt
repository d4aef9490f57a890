//! The tree in memory.
ghost use Rattle.std.specs.Prelude.{◌≡◌, ◌∷◌, ℕ, List, [], None, string_bytes, option_map, IfErr, IfOk, IsSome, length, MatchResult, OnOk};
ghost use Rattle.msr_tree.specs.Calls.{Copies, DoesStep, RenamesNew, Stops};
ghost use Rattle.msr_tree.specs.Steps.{Failed, FileStored, FolderStored, IsAtRest, Linked, Made, MayLeave, Path, Renamed, folder_above, now, seen};
ghost use Rattle.msr_tree.specs.declared.facts.Kind.TheVariants.{Regular};
ghost use Rattle.msr_tree.specs.declared.tree.TreeFault.TheVariants.{Memory};

use crate::facts::{Facts, Kind, Rights, Time};
use crate::kind::FileKind;
use crate::memory::choices::Choices;
use crate::memory::crash::left;
use crate::memory::deed::Deed;
use crate::memory::deeds::{Found, find};
use crate::memory::failure::{Ending, Failure};
use crate::memory::listing::{are_one, has_folder, is_there, kind_at, names_in};
use crate::memory::reader::MemoryReader;
use crate::memory::writer::MemoryWriter;
use crate::paths::{folder_above, is_within};
use crate::tree::{Tree, TreeFault};
use std::alloc::Global;
use std::io;
use std::marker::Model;

/// What is told of the file that was made after so many steps, but for its bytes.
#[derive(Clone, Copy)]
struct Dress {
    made: usize,
    facts: Facts,
}

/// What a look tells of a folder.
const FOLDER: Facts = Facts {
    kind: Kind::Folder,
    device: 0,
    number: 0,
    bytes: 0,
    changed: Time {
        seconds: 0,
        nanoseconds: 0,
    },
    touched: Time {
        seconds: 0,
        nanoseconds: 0,
    },
    rights: Rights {
        owner: 0,
        group: 0,
        mode: 0o755,
    },
};

/// What a look tells of a file that was made then and has no bytes.
fn made_at(moment: u64) -> Facts {
    let time = Time {
        seconds: i64::try_from(moment).unwrap_or(i64::MAX),
        nanoseconds: 0,
    };
    Facts {
        kind: Kind::Regular,
        device: 0,
        number: moment,
        bytes: 0,
        changed: time,
        touched: time,
        rights: Rights {
            owner: 0,
            group: 0,
            mode: 0o644,
        },
    }
}

/// Whether a step makes that folder, or one below it.
fn makes_within(deed: &Deed, path: &str) -> bool {
    match deed {
        Deed::FolderMade(folder) => is_within(path, folder.as_str()),
        _ => false,
    }
}

/// Files in memory.
#[derive(Drop)]
pub struct MemoryTree {
    alloc: Global,
    deeds: Vec<Deed>,
    dresses: Vec<Dress>,
    /// How many steps came before the crash, so that a new file has a number and a time that no older one has.
    begun: u64,
    failure: Option<Failure>,
}

impl Model for MemoryTree {
    ghost use Rattle.std.specs.Prelude.{List};
    ghost use Rattle.msr_tree.specs.Memory.{steps_kept};
    ghost use Rattle.msr_tree.specs.Steps.{Step};

    ghost Value = { List Step };

    ghost view = { λ tree. steps_kept tree.deeds.items };
}

impl MemoryTree {
    ghost use Rattle.msr_tree.specs.Memory.{LeavesName, step_of};

    /// A tree without files.
    pub fn new(alloc: Global) -> MemoryTree
        ensures past { result ≡ [] }
    {
        MemoryTree::begun_at(alloc, 0)
    }

    /// A tree without files that begins with a crash after so many steps.
    fn begun_at(alloc: Global, begun: u64) -> MemoryTree
        ensures past { result ≡ [] }
    {
        MemoryTree {
            alloc,
            deeds: Vec::new(alloc),
            dresses: Vec::new(alloc),
            begun,
            failure: None,
        }
    }

    /// Lets a call fail, or none.
    pub fn fail(&mut self, failure: Option<Failure>)
        ensures { self.new ≡ self.old }
    {
        self.failure = failure;
    }

    /// The bytes under a name.
    pub fn seen(&self, name: &str) -> Option<&[u8]>
        ensures { option_map (λ bytes. bytes.now) result ≡ seen self.now name.now }
    {
        match find(self.deeds.as_slice(), name) {
            Some(file) => Some(file.bytes),
            None => None,
        }
    }

    fn own(&self, path: &str) -> Result<String, TreeFault>
        ensures { MatchResult result (λ own. string_bytes own ≡ path.now) (λ fault. fault ≡ Memory) }
    {
        match String::from_str(self.alloc, path) {
            Ok(own) => Ok(own),
            Err(_) => Err(TreeFault::Memory),
        }
    }

    /// Notes what was done.
    fn note(&mut self, deed: Deed) -> Result<(), TreeFault>
        ensures { MatchResult result (λ _. self.new ≡ step_of deed ∷ self.old)
            (λ fault. (fault ≡ Memory) × (self.new ≡ self.old)) }
    {
        match self.deeds.push(deed) {
            Ok(()) => Ok(()),
            Err(_) => Err(TreeFault::Memory),
        }
    }

    /// Notes that a call fails that has done nothing.
    fn refuse(&mut self) -> TreeFault
        ensures { Stops result (λ left. left ≡ self.old) self.old self.new }
    {
        match self.note(Deed::Failed) {
            Ok(()) => TreeFault::Failed,
            Err(_) => TreeFault::Memory,
        }
    }

    /// Notes what a call has done that fails.
    fn refuse_after(&mut self, deed: Deed) -> TreeFault
        ensures { Stops result (λ left. left ≡ step_of deed ∷ self.old) self.old self.new }
    {
        if self.note(deed).is_err() {
            return TreeFault::Memory;
        }
        match self.note(Deed::Failed) {
            Ok(()) => TreeFault::Failed,
            Err(_) => {
                self.deeds.pop();
                TreeFault::Memory
            }
        }
    }

    /// Notes two things that were done, one after the other.
    fn note_both(&mut self, first: Deed, second: Deed) -> Result<(), TreeFault>
        ensures { MatchResult result (λ _. self.new ≡ step_of second ∷ step_of first ∷ self.old)
            (λ fault. (fault ≡ Memory) × (self.new ≡ self.old)) }
    {
        self.note(first)?;
        match self.note(second) {
            Ok(()) => Ok(()),
            Err(fault) => {
                self.deeds.pop();
                Err(fault)
            }
        }
    }

    /// How the next call ends if it is to fail.
    fn next_ending(&mut self) -> Option<Ending>
        ensures { self.new ≡ self.old }
    {
        let failure = self.failure?;
        self.failure = match failure.call.checked_sub(1) {
            Some(call) => Some(Failure { call, ..failure }),
            None => None,
        };
        if failure.call == 0 {
            Some(failure.ending)
        } else {
            None
        }
    }

    /// DoesStep a step, or what is done of it by a call that ends so.
    fn ends(&mut self, ending: Option<Ending>, deed: Deed) -> Result<(), TreeFault>
        ensures { DoesStep (step_of deed) result self.old self.new }
    {
        match ending {
            None => self.note(deed),
            Some(Ending::Nothing) => Err(self.refuse()),
            Some(Ending::Part | Ending::All) => Err(self.refuse_after(deed)),
        }
    }

    /// DoesStep a step, unless this call is to fail.
    fn does(&mut self, deed: Deed) -> Result<(), TreeFault>
        ensures { DoesStep (step_of deed) result self.old self.new }
    {
        let ending = self.next_ending();
        self.ends(ending, deed)
    }

    /// Counts a call that only tells something.
    fn tells(&mut self) -> Result<(), TreeFault>
        ensures { MatchResult result (λ _. self.new ≡ self.old)
            (λ fault. Stops fault (λ left. left ≡ self.old) self.old self.new) }
    {
        match self.next_ending() {
            None => Ok(()),
            Some(_) => Err(self.refuse()),
        }
    }

    /// A file that is there at the beginning, on the disk. After an `Err` the tree is of no use.
    pub fn with(&mut self, name: &str, bytes: &[u8]) -> Result<(), TreeFault>
        ensures past { OnOk result (self.new
            ≡ FolderStored (folder_above name.now) ∷ FileStored name.now ∷ Made name.now bytes.now ∷ self.old) }
        ensures rest { OnOk result (IsAtRest self.old → IsAtRest self.new) }
        ensures err { IfErr result (λ fault. fault ≡ Memory) }
    {
        let made = Deed::Made(self.own(name)?, Vec::from_slice(self.alloc, bytes)?);
        self.note(made)?;
        let file = Deed::FileStored(self.own(name)?);
        self.note(file)?;
        let folder = Deed::FolderStored(self.own(folder_above(name))?);
        self.note(folder)?;
        Ok(())
    }

    /// Makes what a crash leaves under a name.
    fn leave(
        &self,
        name: &str,
        choices: &mut Choices,
        after: &mut MemoryTree,
    ) -> Result<(), TreeFault>
        ensures left { OnOk result (LeavesName name.now self.now after.old after.new) }
        ensures err { IfErr result (λ fault. fault ≡ Memory) }
    {
        match left(self.deeds.as_slice(), name, choices) {
            Some(file) => after.again(name, file.bytes, self.facts_of(file)),
            None => Ok(()),
        }
    }

    /// A file that is there after a crash, of which the same is told as before.
    fn again(&mut self, name: &str, bytes: &[u8], facts: Facts) -> Result<(), TreeFault>
        ensures past { OnOk result (self.new
            ≡ FolderStored (folder_above name.now) ∷ FileStored name.now ∷ Made name.now bytes.now ∷ self.old) }
        ensures rest { OnOk result (IsAtRest self.old → IsAtRest self.new) }
        ensures err { IfErr result (λ fault. fault ≡ Memory) }
    {
        let made = self.deeds.len();
        self.put_on(made, facts)?;
        self.with(name, bytes)
    }

    /// Notes what is told of a file.
    fn put_on(&mut self, made: usize, facts: Facts) -> Result<(), TreeFault>
        ensures same { self.new ≡ self.old }
        ensures err { IfErr result (λ fault. fault ≡ Memory) }
    {
        match self.dresses.push(Dress { made, facts }) {
            Ok(()) => Ok(()),
            Err(_) => Err(TreeFault::Memory),
        }
    }

    /// How many steps were done before so many of this tree's, also those before the crash.
    fn moment(&self, steps: usize) -> u64 {
        self.begun.saturating_add(steps as u64)
    }

    /// The tree after a crash at this moment.
    pub fn crash(&self, choices: &mut Choices) -> Result<MemoryTree, TreeFault>
        ensures rest { IfOk result IsAtRest }
        ensures left { IfOk result (λ after. (name : Path) → MayLeave self.now name (seen after name)) }
        ensures err { IfErr result (λ fault. fault ≡ Memory) }
    {
        let begun = self.moment(self.deeds.len());
        let mut after = MemoryTree::begun_at(self.alloc, begun);
        let mut rest = self.deeds.as_slice();
        while let Some((deed, before)) = rest.split_last() {
            if let Some(name) = deed.target() {
                self.leave(name, choices, &mut after)?;
            }
            rest = before;
        }
        Ok(after)
    }

    /// What a look tells of a file.
    fn facts_of(&self, file: Found<'_>) -> Facts
        ensures kind { result.kind ≡ Regular }
        ensures bytes { result.bytes ≡ length file.entry.bytes.now }
    {
        let dress = self
            .dresses
            .iter()
            .rev()
            .find(|dress| dress.made == file.made);
        let facts = match dress {
            Some(dress) => dress.facts,
            None => made_at(self.moment(file.made)),
        };
        Facts {
            kind: Kind::Regular,
            bytes: file.bytes.len() as u64,
            ..facts
        }
    }

    /// Whether a folder was made, or a name below it got a file.
    fn is_folder(&self, path: &str) -> bool {
        self.deeds.iter().any(|deed| match deed.target() {
            Some(name) => name != path && is_within(path, name),
            None => makes_within(deed, path),
        })
    }

    /// Whether a name below a folder leads to a file.
    fn has_files(&self, folder: &str) -> bool {
        self.deeds.iter().any(|deed| match deed.target() {
            Some(name) => is_within(folder, name) && self.seen(name).is_some(),
            None => false,
        })
    }

    /// A copy of a file that is cut.
    fn cut(&self, from: &str, to: &str) -> Result<Deed, TreeFault>
        ensures { MatchResult result (λ cut. (bytes : List ℕ) × (step_of cut ≡ Made to.now bytes)) (λ fault. fault ≡ Memory) }
    {
        let to = self.own(to)?;
        let bytes = self.seen(from).unwrap_or(b"");
        Ok(Deed::Made(to, Vec::from_slice(self.alloc, &bytes[..bytes.len() / 2])?))
    }

    fn linked(&self, from: &str, to: &str) -> Result<Deed, TreeFault>
        ensures { MatchResult result (λ deed. step_of deed ≡ Linked from.now to.now) (λ fault. fault ≡ Memory) }
    {
        Ok(Deed::Linked(self.own(from)?, self.own(to)?))
    }

    fn renamed(&self, from: &str, to: &str) -> Result<Deed, TreeFault>
        ensures { MatchResult result (λ deed. step_of deed ≡ Renamed from.now to.now) (λ fault. fault ≡ Memory) }
    {
        Ok(Deed::Renamed(self.own(from)?, self.own(to)?))
    }

    /// Gives a file a name that nothing has.
    fn copy_free(&mut self, from: &str, to: &str) -> Result<(), TreeFault>
        requires there { IsSome (now self.old from.now) }
        requires free { now self.old to.now ≡ None }
        ensures { Copies from.now to.now result self.old self.new }
    {
        match self.next_ending() {
            Some(Ending::Part) => {
                let cut = self.cut(from, to)?;
                Err(self.refuse_after(cut))
            }
            ending => {
                let linked = self.linked(from, to)?;
                self.ends(ending, linked)
            }
        }
    }

    /// Gives a file a name that nothing has in place of its own.
    fn rename_free(&mut self, from: &str, to: &str) -> Result<bool, TreeFault>
        requires { now self.old to.now ≡ None }
        ensures { RenamesNew from.now to.now result self.old self.new }
    {
        match self.next_ending() {
            Some(Ending::Part) => {
                let linked = self.linked(from, to)?;
                Err(self.refuse_after(linked))
            }
            ending => {
                let renamed = self.renamed(from, to)?;
                self.ends(ending, renamed)?;
                Ok(true)
            }
        }
    }
}

#[tactic(auto, using(crate::proofs::Deeds::known))]
impl Tree for MemoryTree {
    type Reader = MemoryReader;

    type Writer = MemoryWriter;

    ghost went = { λ tree past. past ≡ tree };

    fn reason(&self) -> Option<io::Error> {
        None
    }

    fn look(&mut self, path: &str) -> Result<Option<Facts>, TreeFault> {
        self.tells()?;
        match find(self.deeds.as_slice(), path) {
            Some(file) => Ok(Some(self.facts_of(file))),
            None if self.is_folder(path) => Ok(Some(FOLDER)),
            None => Ok(None),
        }
    }

    fn look_through(&mut self, path: &str) -> Result<Option<Facts>, TreeFault> {
        self.look(path)
    }

    fn list(&mut self, folder: &str) -> Result<Vec<String>, TreeFault> {
        let unlisted = Deed::Unlisted(self.own(folder)?);
        if !has_folder(self.deeds.as_slice(), folder) || self.next_ending().is_some() {
            return Err(self.refuse_after(unlisted));
        }
        Ok(names_in(self.alloc, self.deeds.as_slice(), folder)?)
    }

    fn kind(&self, path: &str) -> FileKind {
        kind_at(self.deeds.as_slice(), path)
    }

    fn has(&mut self, path: &str) -> Result<bool, TreeFault> {
        self.tells()?;
        Ok(is_there(self.deeds.as_slice(), path))
    }

    fn is_one(&mut self, one: &str, other: &str) -> Result<bool, TreeFault> {
        self.tells()?;
        Ok(are_one(self.deeds.as_slice(), one, other))
    }

    fn follow(&mut self, path: &str) -> Result<MemoryReader, TreeFault> {
        self.open(path)
    }

    fn open_found(&mut self, path: &str, _facts: &Facts) -> Result<MemoryReader, TreeFault> {
        self.open(path)
    }

    fn open(&mut self, path: &str) -> Result<MemoryReader, TreeFault> {
        self.tells()?;
        match self.seen(path) {
            Some(bytes) => Ok(MemoryReader::new(Vec::from_slice(self.alloc, bytes)?)),
            None => Err(self.refuse()),
        }
    }

    fn make(&mut self, path: &str) -> Result<MemoryWriter, TreeFault> {
        if self.seen(path).is_some() {
            return Err(self.refuse());
        }
        let own = self.own(path)?;
        let made = Deed::Made(self.own(path)?, Vec::new(self.alloc));
        self.does(made)?;
        Ok(MemoryWriter::new(self.alloc, own))
    }

    fn finish(&mut self, path: &str, writer: MemoryWriter) -> Result<(), TreeFault> {
        if writer.path.as_str() != path {
            return Err(self.refuse());
        }
        let own = self.own(path)?;
        self.does(Deed::Made(own, writer.into_bytes()))
    }

    fn finish_stored(&mut self, path: &str, writer: MemoryWriter) -> Result<(), TreeFault> {
        if writer.path.as_str() != path {
            return Err(self.refuse());
        }
        let made = Deed::Made(self.own(path)?, writer.into_bytes());
        match self.next_ending() {
            None => {
                let stored = Deed::FileStored(self.own(path)?);
                self.note_both(made, stored)
            }
            Some(Ending::Nothing) => Err(self.refuse()),
            Some(Ending::Part | Ending::All) => Err(self.refuse_after(made)),
        }
    }

    fn is_same(&mut self, one: &str, other: &str) -> Result<bool, TreeFault> {
        self.tells()?;
        match (self.seen(one), self.seen(other)) {
            (Some(first), Some(second)) => Ok(first == second),
            _ => Err(self.refuse()),
        }
    }

    fn copy(&mut self, from: &str, to: &str) -> Result<(), TreeFault> {
        if self.seen(from).is_none() || self.seen(to).is_some() {
            return Err(self.refuse());
        }
        self.copy_free(from, to)
    }

    fn rename(&mut self, from: &str, to: &str) -> Result<(), TreeFault> {
        if self.seen(from).is_none() {
            return Err(self.refuse());
        }
        let renamed = self.renamed(from, to)?;
        self.does(renamed)
    }

    fn rename_new(&mut self, from: &str, to: &str) -> Result<bool, TreeFault> {
        if self.seen(from).is_none() {
            return Err(self.refuse());
        }
        let is_taken = self.seen(to).is_some();
        if is_taken {
            return Ok(false);
        }
        self.rename_free(from, to)
    }

    fn remove(&mut self, path: &str) -> Result<(), TreeFault> {
        let removed = Deed::Removed(self.own(path)?);
        self.does(removed)
    }

    fn store_file(&mut self, path: &str) -> Result<(), TreeFault> {
        if self.seen(path).is_none() {
            return Err(self.refuse());
        }
        let stored = Deed::FileStored(self.own(path)?);
        self.does(stored)
    }

    fn store_folder(&mut self, folder: &str) -> Result<(), TreeFault> {
        let stored = Deed::FolderStored(self.own(folder)?);
        self.does(stored)
    }

    fn make_folders(&mut self, _top: &str, folder: &str) -> Result<bool, TreeFault> {
        if self.seen(folder).is_some() {
            return Ok(false);
        }
        let made = Deed::FolderMade(self.own(folder)?);
        self.does(made)?;
        Ok(true)
    }

    fn remove_folder(&mut self, folder: &str) -> Result<bool, TreeFault> {
        self.tells()?;
        Ok(!self.has_files(folder))
    }

    fn dress(&mut self, path: &str, facts: &Facts, time: Option<Time>) -> Result<(), TreeFault> {
        self.tells()?;
        let Some(file) = find(self.deeds.as_slice(), path) else {
            return Err(self.refuse());
        };
        let made = file.made;
        let before = self.facts_of(file);
        let dressed = Facts {
            changed: time.unwrap_or(before.changed),
            rights: facts.rights,
            ..before
        };
        self.put_on(made, dressed)
    }
}
