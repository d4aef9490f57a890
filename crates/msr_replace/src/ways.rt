//! The folders on the way to a folder of days, before and after its days are worked on.
ghost use Rattle.std.specs.Prelude.{◌≡◌, ◌∷◌, []};
ghost use Rattle.msr_tree.specs.Acts.{Acts};
ghost use Rattle.msr_tree.specs.Calls.{Goes};
ghost use Rattle.msr_folders.specs.Paths.{joined};
ghost use Rattle.msr_replace.specs.Looks.{RefusesByWays, RefusesWays};
ghost use Rattle.msr_replace.specs.Ways.{AreWays, BeginsFolder, IsKindFound, IsWay, RemovesOnly, further, goes_back, have_links};
ghost use Rattle.msr_exchange.specs.Stamped.{stamp_part_in};
ghost use Rattle.msr_exchange.specs.Moves.{Anything};

use crate::answers::DayRefusal;
use msr_exchange::{DayWork, clear_parts};
use msr_folders::{folder_of, join};
use msr_tree::{Kind, Tree, TreeFault};
use std::alloc::Global;

/// What the four names lead to that a folder of days has below another one.
#[derive(Clone, Copy, PartialEq, Eq)]
enum Way {
    /// To folders.
    Straight,
    /// The last of them, or more, to nothing.
    Ends,
    /// One of them to a link, or to what is no folder.
    Odd,
}

/// What the names lead to, if those before lead so.
fn further(way: Way, kind: Option<Kind>) -> Way
    ensures { result ≡ further way kind }
{
    match kind {
        Some(Kind::Folder) => way,
        Some(Kind::Regular | Kind::Link | Kind::Other) => Way::Odd,
        None => ended(way),
    }
}

/// What the names lead to, if the last of them leads to nothing.
fn ended(way: Way) -> Way
    ensures { result ≡ further way None }
{
    match way {
        Way::Straight | Way::Ends => Way::Ends,
        Way::Odd => Way::Odd,
    }
}

fn kind_at<T: Tree>(
    tree: &mut T,
    alloc: Global,
    top: &str,
    folder: &str,
) -> Result<Option<Kind>, TreeFault>
    ensures { Goes (T.went tree.old) (T.went tree.new)
        (Acts [] (λ past new kind. (new ≡ past) × IsKindFound (joined top.now folder.now) past kind) result) }
{
    let place = join(alloc, top, folder)?;
    let found = tree.look(place.as_str())?;
    Ok(found.map(|facts| facts.kind))
}

/// What leads from `top` to a folder of days.
fn way_to<T: Tree>(tree: &mut T, alloc: Global, top: &str, folder: &str) -> Result<Way, TreeFault>
    ensures { Goes (T.went tree.old) (T.went tree.new)
        (Acts [] (λ past new way. (new ≡ past) × IsWay top.now folder.now past way) result) }
{
    let station = folder_of(folder);
    let network = folder_of(station);
    let year = folder_of(network);
    let first = kind_at(tree, alloc, top, year)?;
    let second = kind_at(tree, alloc, top, network)?;
    let third = kind_at(tree, alloc, top, station)?;
    let last = kind_at(tree, alloc, top, folder)?;
    let way = further(further(Way::Straight, first), second);
    Ok(further(further(way, third), last))
}

/// Why records may not take a file's place, if a link, or what is no folder, is on the way to one of the two.
fn refusal_of_ways(root: Way, out: Way) -> Option<DayRefusal>
    ensures { RefusesWays root out result }
{
    match (root, out) {
        (Way::Odd, _) => Some(DayRefusal::Link),
        (_, Way::Odd) => Some(DayRefusal::RecordsLink),
        _ => None,
    }
}

/// The same of the day with this path.
pub(crate) fn odd_way<T: Tree>(
    tree: &mut T,
    work: &DayWork<'_>,
    path: &str,
) -> Result<Option<DayRefusal>, TreeFault>
    ensures { Goes (T.went tree.old) (T.went tree.new) (Acts [] (RefusesByWays work.now path.now) result) }
{
    let folder = folder_of(path);
    let root = way_to(tree, work.alloc, work.root, folder)?;
    let out = way_to(tree, work.alloc, work.out, folder)?;
    Ok(refusal_of_ways(root, out))
}

/// The ways to a folder of days in ROOT, OUT and ASIDE.
#[derive(Clone, Copy)]
struct Ways {
    root: Way,
    out: Way,
    aside: Way,
}

impl Ways {
    fn of<T: Tree>(tree: &mut T, work: &DayWork<'_>, folder: &str) -> Result<Ways, TreeFault>
        ensures { Goes (T.went tree.old) (T.went tree.new)
            (Acts [] (λ past new ways. (new ≡ past) × AreWays work.now folder.now past ways) result) }
    {
        let root = way_to(tree, work.alloc, work.root, folder)?;
        let out = way_to(tree, work.alloc, work.out, folder)?;
        let aside = way_to(tree, work.alloc, work.aside, folder)?;
        Ok(Ways { root, out, aside })
    }

    fn have_links(self) -> bool
        ensures { result ≡ have_links self }
    {
        self.root == Way::Odd || self.out == Way::Odd || self.aside == Way::Odd
    }

    /// Whether originals that ASIDE has there can get back into ROOT.
    fn lead_back(self) -> bool
        ensures { result ≡ goes_back self.root self.aside }
    {
        match self.aside {
            Way::Straight => self.root == Way::Straight,
            Way::Ends => true,
            Way::Odd => false,
        }
    }
}

/// Removes the stamp that a killed run was about to give its name, if that can be done.
fn clear_stamp<T: Tree>(tree: &mut T, work: &DayWork<'_>, folder: &str)
    ensures { Goes (T.went tree.old) (T.went tree.new) (RemovesOnly (stamp_part_in work.now folder.now ∷ [])) }
{
    let reports = work.reports;
    match format!(in work.alloc; "{reports}/{folder}/.msrepack-replace.stamp") {
        Ok(part) => {
            let _ = tree.remove(part.as_str());
        }
        Err(_) => {}
    }
}

/// Removes what killed runs left in a folder of days, unless a link is on the way to it. Tells whether originals that ASIDE
/// has there can get back into ROOT.
pub(crate) fn begin_folder<T: Tree>(
    tree: &mut T,
    work: &DayWork<'_>,
    folder: &str,
) -> Result<bool, TreeFault>
    ensures { Goes (T.went tree.old) (T.went tree.new) (BeginsFolder work.now folder.now result) }
{
    let ways = Ways::of(tree, work, folder)?;
    if ways.have_links() {
        return Ok(ways.lead_back());
    }
    clear_parts(tree, work, folder)?;
    clear_stamp(tree, work, folder);
    Ok(ways.lead_back())
}

/// Removes a folder below another one, if it is empty, and tells whether it is gone.
fn is_removed<T: Tree>(
    tree: &mut T,
    alloc: Global,
    top: &str,
    folder: &str,
) -> Result<bool, TreeFault>
    ensures { Goes (T.went tree.old) (T.went tree.new) (Acts [] Anything result) }
{
    let place = join(alloc, top, folder)?;
    tree.remove_folder(place.as_str())
}

/// Removes a folder of originals that are all back, and those above it, as far as nothing is in them.
pub(crate) fn end_folder<T: Tree>(
    tree: &mut T,
    work: &DayWork<'_>,
    folder: &str,
) -> Result<(), TreeFault>
    ensures { Goes (T.went tree.old) (T.went tree.new) (Acts [] Anything result) }
{
    let station = folder_of(folder);
    let network = folder_of(station);
    let (alloc, top) = (work.alloc, work.aside);
    if !is_removed(tree, alloc, top, folder)? {
        return Ok(());
    }
    if !is_removed(tree, alloc, top, station)? {
        return Ok(());
    }
    if !is_removed(tree, alloc, top, network)? {
        return Ok(());
    }
    is_removed(tree, alloc, top, folder_of(network))?;
    Ok(())
}
