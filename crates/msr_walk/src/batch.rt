//! Days whose stamps wait, so that their folders are stored once for many.
ghost use Rattle.std.specs.Prelude.{◌≡◌, ◌⊎◌, ◌∷◌, ◌++◌, [], false, true, nat_eq};
ghost use Rattle.std.specs.List.{AllByRecursion, ends_with};
ghost use Rattle.std.specs.String.{string_bytes};
ghost use Rattle.msr_folders.specs.Days.{IsDay};
ghost use Rattle.msr_folders.specs.Walks.{HoldsAt};
ghost use Rattle.msr_naming.specs.Promise.{stamp_paths};
ghost use Rattle.msr_tree.specs.Calls.{Goes};
ghost use Rattle.msr_walk.specs.Waiting.{AreOfDay, AreOfDaysAt, AreSome, AreWaitingAt, IsNoneWaiting, SomeWait, TakenWaits, WaitsAs, files_waiting, parts_waiting};
ghost use Rattle.msr_walk.specs.Told.{DropsWaiting, SettlesNames, SettlesWaiting};

use crate::claims::Claims;
use crate::walker::Walker;
use msr_folders::{folder_of, join};
use msr_naming::{Waiting, name_stamps};
use msr_tree::{Tree, TreeFault};
use std::alloc::{AllocFailed, Global};
use std::mem;

/// How many days wait at most: a kill costs them their stamps, and nothing else.
const DAYS: usize = 64;

/// The days of a folder that wait.
#[derive(Drop)]
pub(crate) struct Batch<K> {
    pub(crate) days: Vec<Waiting<K>>,
    /// Their folder, from OUT's own on.
    pub(crate) folder: String,
    /// That whose name was stored last, with the names of those that lead to it.
    stored: Option<String>,
}

/// Lets a day go; its claim stays beside a stamp that could not be removed.
fn release<T: Tree, C: Claims>(
    tree: &mut T,
    walker: &Walker<'_, C>,
    day: &Waiting<C::Claim>,
    is_stamped: bool,
)
    requires { HoldsAt (T.went tree.old) (λ past. AreOfDay walker.now.archive.now day.now.files) }
    ensures { Goes (T.went tree.old) (T.went tree.new) (SettlesNames walker.now.archive.now (day.now.files.stamp.part ∷ [])) }
{
    if is_stamped {
        walker.claims.release(&day.claim);
        return;
    }
    if tree.remove(day.files.stamp.part.as_str()).is_ok() {
        walker.claims.release(&day.claim);
    }
}

/// Lets days go.
fn release_all<T: Tree, C: Claims>(
    tree: &mut T,
    walker: &Walker<'_, C>,
    days: &[Waiting<C::Claim>],
    are_stamped: bool,
)
    requires { AreOfDaysAt (T.went tree.old) walker.now.archive.now days.now }
    ensures { Goes (T.went tree.old) (T.went tree.new) (SettlesNames walker.now.archive.now (parts_waiting days.now)) }
{
    for day in days {
        release(tree, walker, day, are_stamped);
    }
}

/// Whether a name ends in a path. Its last bytes, in which most names differ, are compared first.
fn ends_in(name: &[u8], last: &[u8], path: &[u8]) -> bool
    ensures { result ≡ false → (ends_with nat_eq name.now last.now ≡ false) ⊎ (ends_with nat_eq name.now path.now ≡ false) }
{
    if !name.ends_with(last) {
        return false;
    }
    name.ends_with(path)
}

/// Whether the day with this path may be one of these.
fn may_be_among<K>(days: &[Waiting<K>], path: &str) -> bool
    ensures { result ≡ false → AllByRecursion (λ files. ends_with nat_eq files.records.path path.now ≡ false) (files_waiting days.now) }
{
    let bytes = path.as_bytes();
    let day_of_year = &bytes[bytes.len().saturating_sub(3)..];
    for day in days {
        if ends_in(day.files.records.path.as_bytes(), day_of_year, bytes) {
            return true;
        }
    }
    false
}

/// A day waits on if it is this walk's still. If not, its stamp goes.
fn keep_ours<T: Tree, C: Claims>(
    tree: &mut T,
    walker: &Walker<'_, C>,
    day: Waiting<C::Claim>,
    ours: &mut Vec<Waiting<C::Claim>>,
)
    requires { HoldsAt (T.went tree.old) (λ past. AreOfDay walker.now.archive.now day.files) }
    ensures ours { (ours.new.items ≡ ours.old.items ++ day ∷ []) ⊎ (ours.new.items ≡ ours.old.items) }
    ensures waits { TakenWaits (T.went tree.old) (T.went tree.new) walker.now.archive.now day ours.old.items ours.new.items }
    ensures works { Goes (T.went tree.old) (T.went tree.new) (SettlesNames walker.now.archive.now (day.files.stamp.part ∷ [])) }
{
    if !walker.claims.is_ours(&day.claim) {
        tree.remove(day.files.stamp.part.as_str()).ok();
        return;
    }
    match ours.push(day) {
        Ok(()) => {}
        Err(AllocFailed { value: day }) => release(tree, walker, &day, false),
    }
}

/// Of these days, from the last to the first, those that are this walk's still.
fn all_ours<T: Tree, C: Claims>(
    tree: &mut T,
    walker: &Walker<'_, C>,
    mut days: Vec<Waiting<C::Claim>>,
) -> Vec<Waiting<C::Claim>>
    requires { AreOfDaysAt (T.went tree.old) walker.now.archive.now days.items }
    ensures some { AreSome days.items result.items }
    ensures wait { SomeWait (T.went tree.old) (T.went tree.new) walker.now.archive.now days.items result.items }
    ensures works { Goes (T.went tree.old) (T.went tree.new) (SettlesNames walker.now.archive.now (stamp_paths (files_waiting days.items))) }
{
    let mut ours = Vec::new(walker.alloc);
    while let Some(day) = days.pop() {
        keep_ours(tree, walker, day, &mut ours);
    }
    ours
}

impl<K: Drop> Batch<K> {
    pub(crate) fn new(alloc: Global) -> Batch<K>
        ensures { result.days.items ≡ [] }
    {
        Batch {
            days: Vec::new(alloc),
            folder: String::new(alloc),
            stored: None,
        }
    }

    /// Notes the folder of the days that are to wait, and tells whether memory allowed it.
    fn begin(&mut self, alloc: Global, folder: &str) -> bool
        ensures days { self.new.days ≡ self.old.days }
        ensures folder { result ≡ true → string_bytes self.new.folder ≡ folder.now }
    {
        match String::from_str(alloc, folder) {
            Ok(name) => {
                self.folder = name;
                true
            }
            Err(_) => false,
        }
    }

    /// Days of that folder are to wait. Those of another one are settled before. Tells whether there was memory for it.
    fn turn_to<T: Tree, C: Claims<Claim = K>>(
        &mut self,
        tree: &mut T,
        walker: &Walker<'_, C>,
        folder: &str,
    ) -> bool
        requires { AreWaitingAt (T.went tree.old) walker.now.archive.now (string_bytes self.old.folder) self.old.days.items }
        ensures days { AreWaitingAt (T.went tree.new) walker.now.archive.now (string_bytes self.new.folder) self.new.days.items }
        ensures folder { result ≡ true → string_bytes self.new.folder ≡ folder.now }
        ensures settled { result ≡ false → self.new.days.items ≡ [] }
        ensures some { (self.new.days.items ≡ self.old.days.items) ⊎ (self.new.days.items ≡ []) }
        ensures works { Goes (T.went tree.old) (T.went tree.new) (SettlesNames walker.now.archive.now (stamp_paths (files_waiting self.old.days.items))) }
    {
        if self.folder.as_str() == folder {
            return true;
        }
        self.settle(tree, walker);
        self.begin(walker.alloc, folder)
    }

    /// Settles the days if they are many.
    fn settle_full<T: Tree, C: Claims<Claim = K>>(&mut self, tree: &mut T, walker: &Walker<'_, C>)
        requires { AreWaitingAt (T.went tree.old) walker.now.archive.now (string_bytes self.old.folder) self.old.days.items }
        ensures days { AreWaitingAt (T.went tree.new) walker.now.archive.now (string_bytes self.new.folder) self.new.days.items }
        ensures works { Goes (T.went tree.old) (T.went tree.new) (SettlesWaiting walker.now.archive.now) }
    {
        if self.days.len() < DAYS {
            return;
        }
        self.settle(tree, walker);
    }

    /// The day with this path is to be done. If it waits, as where it is asked for twice, all that wait get no stamps.
    pub(crate) fn make_way<T: Tree, C: Claims<Claim = K>>(
        &mut self,
        tree: &mut T,
        walker: &Walker<'_, C>,
        path: &str,
    )
        requires days { AreWaitingAt (T.went tree.old) walker.now.archive.now (string_bytes self.old.folder) self.old.days.items }
        requires path { IsDay path.now }
        ensures days { AreWaitingAt (T.went tree.new) walker.now.archive.now (string_bytes self.new.folder) self.new.days.items }
        ensures none { HoldsAt (T.went tree.new) (λ past. IsNoneWaiting walker.now.archive.now path.now self.new.days.items) }
        ensures works { Goes (T.went tree.old) (T.went tree.new) (DropsWaiting walker.now.archive.now path.now) }
    {
        if !may_be_among(self.days.as_slice(), path) {
            return;
        }
        let days = mem::replace(&mut self.days, Vec::new(walker.alloc));
        release_all(tree, walker, days.as_slice(), false);
    }

    /// The day with this path waits. Without memory for that it gets no stamp.
    pub(crate) fn add<T: Tree, C: Claims<Claim = K>>(
        &mut self,
        tree: &mut T,
        walker: &Walker<'_, C>,
        path: &str,
        day: Waiting<K>,
    )
        requires days { AreWaitingAt (T.went tree.old) walker.now.archive.now (string_bytes self.old.folder) self.old.days.items }
        requires day { HoldsAt (T.went tree.old) (WaitsAs walker.now.archive.now path.now day.files) }
        requires path { IsDay path.now }
        requires none { HoldsAt (T.went tree.old) (λ past. IsNoneWaiting walker.now.archive.now path.now self.old.days.items) }
        ensures days { AreWaitingAt (T.went tree.new) walker.now.archive.now (string_bytes self.new.folder) self.new.days.items }
        ensures works { Goes (T.went tree.old) (T.went tree.new) (SettlesWaiting walker.now.archive.now) }
    {
        if !self.turn_to(tree, walker, folder_of(path)) {
            release(tree, walker, &day, false);
            return;
        }
        match self.days.push(day) {
            Ok(()) => self.settle_full(tree, walker),
            Err(AllocFailed { value: day }) => release(tree, walker, &day, false),
        }
    }

    /// Gives the stamps of all days that wait their names, if their folders can be stored, and lets the days go.
    pub(crate) fn settle<T: Tree, C: Claims<Claim = K>>(
        &mut self,
        tree: &mut T,
        walker: &Walker<'_, C>,
    )
        requires { AreWaitingAt (T.went tree.old) walker.now.archive.now (string_bytes self.old.folder) self.old.days.items }
        ensures days { self.new.days.items ≡ [] }
        ensures works { Goes (T.went tree.old) (T.went tree.new) (SettlesNames walker.now.archive.now (stamp_paths (files_waiting self.old.days.items))) }
    {
        if self.days.is_empty() {
            return;
        }
        let days = mem::replace(&mut self.days, Vec::new(walker.alloc));
        let ours = all_ours(tree, walker, days);
        let are_stamped = self.name_all(tree, walker, ours.as_slice()).is_ok();
        release_all(tree, walker, ours.as_slice(), are_stamped);
    }

    /// Gives the stamps of these days their names, if their folders can be stored.
    fn name_all<T: Tree, C: Claims<Claim = K>>(
        &mut self,
        tree: &mut T,
        walker: &Walker<'_, C>,
        ours: &[Waiting<K>],
    ) -> Result<(), TreeFault>
        requires { AreWaitingAt (T.went tree.old) walker.now.archive.now (string_bytes self.old.folder) ours.now }
        ensures days { self.new.days ≡ self.old.days }
        ensures works { Goes (T.went tree.old) (T.went tree.new) (SettlesNames walker.now.archive.now (stamp_paths (files_waiting ours.now))) }
    {
        self.store_names(walker)?;
        let (alloc, folders) = (walker.alloc, walker.archive.folders);
        let out = join(alloc, folders.out, self.folder.as_str())?;
        let reports = join(alloc, folders.reports, self.folder.as_str())?;
        name_stamps(tree, out.as_str(), reports.as_str(), ours)
    }

    /// Stores the names of the folders that lead to the days. Nobody knows which of them are: a walk may have made them and
    /// been killed.
    fn store_names<C: Claims<Claim = K>>(&mut self, walker: &Walker<'_, C>) -> Result<(), TreeFault>
        ensures days { self.new.days ≡ self.old.days }
        ensures folder { self.new.folder ≡ self.old.folder }
    {
        let last = match &self.stored {
            Some(stored) if stored.as_str() == self.folder.as_str() => return Ok(()),
            Some(stored) => Some(stored.as_str()),
            None => None,
        };
        let alloc = walker.alloc;
        let folder = String::from_str(alloc, self.folder.as_str())?;
        let folders = walker.archive.folders;
        walker
            .claims
            .store_names(alloc, folders, folder.as_str(), last)?;
        self.stored = Some(folder);
        Ok(())
    }
}
