//! The walk through the folders of a tree, in the order of the names.
ghost use Rattle.std.specs.Prelude.{◌≡◌, ℕ, Bool, true, List, IfErr, IfOk, OnOk, is_ok};
ghost use Rattle.msr_devices.specs.Device.{CanCountCall, Device};
ghost use Rattle.msr_devices.specs.declared.fault.DeviceFault.{DeviceFault};
ghost use Rattle.msr_tree.specs.Calls.{Goes};
ghost use Rattle.msr_tree.specs.Steps.{Path, Step};
ghost use Rattle.msr_folders.specs.Entries.{AreEntries, AreEntriesBetween, AreOfEntry, Entry, IsMoment, Left, Visit, WithoutList};
ghost use Rattle.msr_folders.specs.Opening.{IsKindAt, OpensFolder};
ghost use Rattle.msr_folders.specs.Paths.{joined};
ghost use Rattle.msr_folders.specs.Walks.{HoldsAt, HoldsListed, TellsEntering, TellsVisit, TellsWalk, VisitDoes, VisitLaws};

use crate::opened::Opened;
use crate::paths::{entry_path, join};
use msr_devices::{DeviceFault, Sink};
use msr_sds::{FOLDERS, levels_below};
use msr_tree::{FileKind, Tree, TreeFault};
use std::alloc::{AllocError, Global};

/// What is done on a walk: each visit prints to a sink, and counts, and may change the tree.
pub trait EntryVisitor {
    /// What is counted.
    type Tally;

    /// What a folder's entries are visited with.
    type Folder: Drop;

    /// What is told of a visit.
    ghost Line: { Type 0 };

    /// These lines were told, from one sink and tally to the other.
    ghost tells: { Self → List Line → Device → Device → Self.Tally → Self.Tally → Type 0 };

    /// A visit stopped.
    ghost stops: { Self → Device → Device → DeviceFault → Type 0 };

    /// What lines say of a visit that is made between these moments.
    ghost says: { Self → List Step → List Step → Visit → List Line → Type 0 };

    /// What is done to the tree, by visits after which the walk goes on (`true`), or the last of which stops it.
    ghost does: { Self → Bool → List Step → List Step → Type 0 };

    /// What is done between visits, where nothing is told.
    ghost between: { Self → List Step → List Step → Type 0 };

    /// No visit lists a folder.
    ghost listless: { Self → Type 0 };

    /// What holds of what is counted and of the steps so far, before each visit and after it.
    ghost holds: { Self → Self.Tally → List Step → Type 0 };

    /// The folder that is walked.
    ghost root: { Self → Path };

    /// Begins with a folder, before it is listed, and folders of the walk up to `levels` below it. `None`: it is left alone.
    fn enter_folder<T: Tree, O: Sink>(
        &self,
        tree: &mut T,
        folder: &str,
        levels: u8,
        out: &mut O,
        tally: &mut Self::Tally,
    ) -> Result<Option<Self::Folder>, DeviceFault>
        requires count { CanCountCall (O.device out.old) }
        requires holds { HoldsAt (T.went tree.old) (holds self.now tally.old) }
        ensures told { IfOk result (λ entered. TellsEntering (tells self.now) (says self.now) (does self.now true) (between self.now) (listless self.now)
            folder.now entered (T.went tree.old) (T.went tree.new) (O.device out.old) (O.device out.new) tally.old tally.new) }
        ensures stops { IfErr result (stops self.now (O.device out.old) (O.device out.new)) }
        ensures does { Goes (T.went tree.old) (T.went tree.new) (VisitDoes (does self.now (is_ok result)) (listless self.now)) }
        ensures holds { HoldsAt (T.went tree.new) (holds self.now tally.new) };

    /// Handles an entry that is no folder of the walk.
    fn visit_entry<T: Tree, O: Sink>(
        &self,
        tree: &mut T,
        folder: &Self::Folder,
        path: &str,
        kind: FileKind,
        out: &mut O,
        tally: &mut Self::Tally,
    ) -> Result<(), DeviceFault>
        requires count { CanCountCall (O.device out.old) }
        requires holds { HoldsAt (T.went tree.old) (holds self.now tally.old) }
        ensures told { OnOk result (TellsVisit (tells self.now) (says self.now) (does self.now true) (listless self.now) (Entry path.now kind)
            (T.went tree.old) (T.went tree.new) (O.device out.old) (O.device out.new) tally.old tally.new) }
        ensures stops { IfErr result (stops self.now (O.device out.old) (O.device out.new)) }
        ensures does { Goes (T.went tree.old) (T.went tree.new) (VisitDoes (does self.now (is_ok result)) (listless self.now)) }
        ensures holds { HoldsAt (T.went tree.new) (holds self.now tally.new) };

    /// Handles a folder that has no list, and stands in that place.
    fn visit_unlisted<T: Tree, O: Sink>(
        &self,
        tree: &mut T,
        folder: &str,
        place: &str,
        out: &mut O,
        tally: &mut Self::Tally,
    ) -> Result<(), DeviceFault>
        requires count { CanCountCall (O.device out.old) }
        requires place { place.now ≡ joined (root self.now) folder.now }
        requires holds { HoldsAt (T.went tree.old) (holds self.now tally.old) }
        ensures told { OnOk result (TellsVisit (tells self.now) (says self.now) (does self.now true) (listless self.now) (WithoutList folder.now)
            (T.went tree.old) (T.went tree.new) (O.device out.old) (O.device out.new) tally.old tally.new) }
        ensures stops { IfErr result (stops self.now (O.device out.old) (O.device out.new)) }
        ensures does { Goes (T.went tree.old) (T.went tree.new) (VisitDoes (does self.now (is_ok result)) (listless self.now)) }
        ensures holds { HoldsAt (T.went tree.new) (holds self.now tally.new) };

    /// Ends with a folder whose entries were visited.
    fn leave_folder<T: Tree, O: Sink>(
        &self,
        tree: &mut T,
        folder: &str,
        levels: u8,
        out: &mut O,
        tally: &mut Self::Tally,
    ) -> Result<(), DeviceFault>
        requires count { CanCountCall (O.device out.old) }
        requires holds { HoldsAt (T.went tree.old) (holds self.now tally.old) }
        ensures told { OnOk result (TellsVisit (tells self.now) (says self.now) (does self.now true) (listless self.now) (Left folder.now)
            (T.went tree.old) (T.went tree.new) (O.device out.old) (O.device out.new) tally.old tally.new) }
        ensures stops { IfErr result (stops self.now (O.device out.old) (O.device out.new)) }
        ensures does { Goes (T.went tree.old) (T.went tree.new) (VisitDoes (does self.now (is_ok result)) (listless self.now)) }
        ensures holds { HoldsAt (T.went tree.new) (holds self.now tally.new) };

    ghost laws: { VisitLaws tells stops does between };

    ghost listed: { HoldsListed holds };
}

/// A walk: memory, the folder that is walked, and what is done.
#[derive(Drop)]
pub struct EntryWalk<'a, V> {
    pub alloc: Global,
    pub root: &'a str,
    /// The paths, from that folder, of the folders that are walked; none for all of it.
    pub below: &'a [&'a str],
    pub visitor: &'a V,
}

/// What stands in a place below the folder that is walked, if folders are gone into there; else it is not looked at.
fn kind_at<T: Tree>(
    alloc: Global,
    tree: &T,
    root: &str,
    path: &str,
    levels: u8,
) -> Result<FileKind, AllocError>
    ensures { IfOk result (IsKindAt (T.went tree.now) (joined root.now path.now) levels) }
{
    if levels == 0 {
        return Ok(FileKind::Other);
    }
    let place = join(alloc, root, path)?;
    Ok(tree.kind(place.as_str()))
}

impl<V: EntryVisitor> EntryWalk<'_, V> {
    /// Lists a folder that was begun with; nothing if it has no list.
    fn list_folder<T: Tree, O: Sink>(
        &self,
        tree: &mut T,
        folder: &str,
        entered: V::Folder,
        out: &mut O,
        tally: &mut V::Tally,
    ) -> Result<Option<Opened<V::Folder>>, DeviceFault>
        requires count { CanCountCall (O.device out.old) }
        requires root { V.root self.now.visitor.now ≡ self.now.root.now }
        requires holds { HoldsAt (T.went tree.old) (V.holds self.now.visitor.now tally.old) }
        ensures told { IfOk result (λ opened. (levels : ℕ) → OpensFolder (V.tells self.now.visitor.now) (V.says self.now.visitor.now)
            (V.does self.now.visitor.now true) (V.between self.now.visitor.now) (V.listless self.now.visitor.now) self.now.root.now levels folder.now opened
            (T.went tree.old) (T.went tree.new) (O.device out.old) (O.device out.new) tally.old tally.new) }
        ensures stops { IfErr result (V.stops self.now.visitor.now (O.device out.old) (O.device out.new)) }
        ensures does { Goes (T.went tree.old) (T.went tree.new) (V.does self.now.visitor.now (is_ok result)) }
        ensures holds { HoldsAt (T.went tree.new) (V.holds self.now.visitor.now tally.new) }
    {
        let place = join(self.alloc, self.root, folder)?;
        match tree.list(place.as_str()) {
            Ok(names) => Ok(Some(Opened { entered, names })),
            Err(TreeFault::Memory) => Err(DeviceFault::Memory),
            Err(TreeFault::Failed) => {
                self.visitor
                    .visit_unlisted(tree, folder, place.as_str(), out, tally)?;
                Ok(None)
            }
        }
    }

    /// Begins with a folder and lists it; nothing if it is left alone, or has no list.
    fn open_folder<T: Tree, O: Sink>(
        &self,
        tree: &mut T,
        folder: &str,
        levels: u8,
        out: &mut O,
        tally: &mut V::Tally,
    ) -> Result<Option<Opened<V::Folder>>, DeviceFault>
        requires count { CanCountCall (O.device out.old) }
        requires root { V.root self.now.visitor.now ≡ self.now.root.now }
        requires holds { HoldsAt (T.went tree.old) (V.holds self.now.visitor.now tally.old) }
        ensures told { IfOk result (λ opened. OpensFolder (V.tells self.now.visitor.now) (V.says self.now.visitor.now)
            (V.does self.now.visitor.now true) (V.between self.now.visitor.now) (V.listless self.now.visitor.now) self.now.root.now levels folder.now opened
            (T.went tree.old) (T.went tree.new) (O.device out.old) (O.device out.new) tally.old tally.new) }
        ensures stops { IfErr result (V.stops self.now.visitor.now (O.device out.old) (O.device out.new)) }
        ensures does { Goes (T.went tree.old) (T.went tree.new) (V.does self.now.visitor.now (is_ok result)) }
        ensures holds { HoldsAt (T.went tree.new) (V.holds self.now.visitor.now tally.new) }
    {
        let Some(entered) = self.visitor.enter_folder(tree, folder, levels, out, tally)? else {
            return Ok(None);
        };
        self.list_folder(tree, folder, entered, out, tally)
    }

    /// Handles an entry that is not gone into.
    fn visit_entry<T: Tree, O: Sink>(
        &self,
        tree: &mut T,
        entered: &V::Folder,
        path: &str,
        kind: FileKind,
        out: &mut O,
        tally: &mut V::Tally,
    ) -> Result<(), DeviceFault>
        requires count { CanCountCall (O.device out.old) }
        requires holds { HoldsAt (T.went tree.old) (V.holds self.now.visitor.now tally.old) }
        ensures told { OnOk result (TellsVisit (V.tells self.now.visitor.now) (V.says self.now.visitor.now) (V.does self.now.visitor.now true)
            (V.listless self.now.visitor.now) (Entry path.now kind)
            (T.went tree.old) (T.went tree.new) (O.device out.old) (O.device out.new) tally.old tally.new) }
        ensures stops { IfErr result (V.stops self.now.visitor.now (O.device out.old) (O.device out.new)) }
        ensures does { Goes (T.went tree.old) (T.went tree.new)
            (VisitDoes (V.does self.now.visitor.now (is_ok result)) (V.listless self.now.visitor.now)) }
        ensures holds { HoldsAt (T.went tree.new) (V.holds self.now.visitor.now tally.new) }
    {
        self.visitor
            .visit_entry(tree, entered, path, kind, out, tally)
    }

    /// Ends with a folder whose entries were visited.
    fn leave_folder<T: Tree, O: Sink>(
        &self,
        tree: &mut T,
        folder: &str,
        levels: u8,
        out: &mut O,
        tally: &mut V::Tally,
    ) -> Result<(), DeviceFault>
        requires count { CanCountCall (O.device out.old) }
        requires holds { HoldsAt (T.went tree.old) (V.holds self.now.visitor.now tally.old) }
        ensures told { OnOk result (TellsVisit (V.tells self.now.visitor.now) (V.says self.now.visitor.now) (V.does self.now.visitor.now true)
            (V.listless self.now.visitor.now) (Left folder.now)
            (T.went tree.old) (T.went tree.new) (O.device out.old) (O.device out.new) tally.old tally.new) }
        ensures stops { IfErr result (V.stops self.now.visitor.now (O.device out.old) (O.device out.new)) }
        ensures does { Goes (T.went tree.old) (T.went tree.new)
            (VisitDoes (V.does self.now.visitor.now (is_ok result)) (V.listless self.now.visitor.now)) }
        ensures holds { HoldsAt (T.went tree.new) (V.holds self.now.visitor.now tally.new) }
    {
        self.visitor.leave_folder(tree, folder, levels, out, tally)
    }

    /// Visits an entry of a folder with `levels` below it: what it is, or if it is gone into, its entries.
    #[cycle(walk)]
    fn visit_path<T: Tree, O: Sink>(
        &self,
        tree: &mut T,
        entered: &V::Folder,
        path: &str,
        levels: u8,
        out: &mut O,
        tally: &mut V::Tally,
    ) -> Result<(), DeviceFault>
        requires count { CanCountCall (O.device out.old) }
        requires root { V.root self.now.visitor.now ≡ self.now.root.now }
        requires holds { HoldsAt (T.went tree.old) (V.holds self.now.visitor.now tally.old) }
        ensures told { OnOk result (TellsWalk (V.tells self.now.visitor.now) (V.says self.now.visitor.now)
            (V.does self.now.visitor.now true) (V.between self.now.visitor.now) (V.listless self.now.visitor.now) self.now.root.now
            (λ past new. AreOfEntry (IsMoment (V.does self.now.visitor.now true) new) past self.now.root.now levels path.now)
            (T.went tree.old) (T.went tree.new) (O.device out.old) (O.device out.new) tally.old tally.new) }
        ensures stops { IfErr result (V.stops self.now.visitor.now (O.device out.old) (O.device out.new)) }
        ensures does { Goes (T.went tree.old) (T.went tree.new) (V.does self.now.visitor.now (is_ok result)) }
        ensures holds { HoldsAt (T.went tree.new) (V.holds self.now.visitor.now tally.new) }
    {
        let kind = kind_at(self.alloc, &*tree, self.root, path, levels)?;
        if kind == FileKind::Folder {
            return self.visit_folder(tree, path, levels - 1, out, tally);
        }
        self.visit_entry(tree, entered, path, kind, out, tally)
    }

    /// Visits the entries of the folder with that path, and of folders up to `levels` below it.
    #[cycle(walk)]
    fn visit_folder<T: Tree, O: Sink>(
        &self,
        tree: &mut T,
        folder: &str,
        levels: u8,
        out: &mut O,
        tally: &mut V::Tally,
    ) -> Result<(), DeviceFault>
        requires count { CanCountCall (O.device out.old) }
        requires root { V.root self.now.visitor.now ≡ self.now.root.now }
        requires holds { HoldsAt (T.went tree.old) (V.holds self.now.visitor.now tally.old) }
        ensures told { OnOk result (TellsWalk (V.tells self.now.visitor.now) (V.says self.now.visitor.now)
            (V.does self.now.visitor.now true) (V.between self.now.visitor.now) (V.listless self.now.visitor.now) self.now.root.now
            (λ past new. AreEntries (IsMoment (V.does self.now.visitor.now true) new) past self.now.root.now levels folder.now)
            (T.went tree.old) (T.went tree.new) (O.device out.old) (O.device out.new) tally.old tally.new) }
        ensures stops { IfErr result (V.stops self.now.visitor.now (O.device out.old) (O.device out.new)) }
        ensures does { Goes (T.went tree.old) (T.went tree.new) (V.does self.now.visitor.now (is_ok result)) }
        ensures holds { HoldsAt (T.went tree.new) (V.holds self.now.visitor.now tally.new) }
    {
        let Some(opened) = self.open_folder(tree, folder, levels, out, tally)? else {
            return Ok(());
        };
        for name in &opened.names {
            let path = entry_path(self.alloc, folder, name.as_str())?;
            self.visit_path(tree, &opened.entered, path.as_str(), levels, out, tally)?;
        }
        self.leave_folder(tree, folder, levels, out, tally)
    }
}

/// Visits all of the folder that is walked, or the folders of it that are asked for, one after another.
pub fn visit_entries<T: Tree, V: EntryVisitor, O: Sink>(
    walk: &EntryWalk<'_, V>,
    tree: &mut T,
    out: &mut O,
    tally: &mut V::Tally,
) -> Result<(), DeviceFault>
    requires count { CanCountCall (O.device out.old) }
    requires root { V.root walk.now.visitor.now ≡ walk.now.root.now }
    requires holds { HoldsAt (T.went tree.old) (V.holds walk.now.visitor.now tally.old) }
    ensures told { OnOk result (TellsWalk (V.tells walk.now.visitor.now) (V.says walk.now.visitor.now)
        (V.does walk.now.visitor.now true) (V.between walk.now.visitor.now) (V.listless walk.now.visitor.now) walk.now.root.now
        (λ past new. AreEntriesBetween (V.does walk.now.visitor.now true) past new walk.now.root.now walk.now.below.now)
        (T.went tree.old) (T.went tree.new) (O.device out.old) (O.device out.new) tally.old tally.new) }
    ensures stops { IfErr result (V.stops walk.now.visitor.now (O.device out.old) (O.device out.new)) }
    ensures does { Goes (T.went tree.old) (T.went tree.new) (V.does walk.now.visitor.now (is_ok result)) }
    ensures holds { HoldsAt (T.went tree.new) (V.holds walk.now.visitor.now tally.new) }
{
    if walk.below.is_empty() {
        return walk.visit_folder(tree, "", FOLDERS, out, tally);
    }
    for folder in walk.below {
        let levels = levels_below(folder).unwrap_or(0);
        walk.visit_folder(tree, folder, levels, out, tally)?;
    }
    Ok(())
}
