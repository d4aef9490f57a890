//! What stands under the names of a day.
ghost use Rattle.std.specs.Prelude.{◌≡◌, IfSome, None, false, true};
ghost use Rattle.msr_tree.specs.Calls.{Goes};
ghost use Rattle.msr_making.specs.Looking.{AreRegular, AsksForOne, AsksForShared, FindsBeside, FindsDay, HasUnknown, IsIrregular, IsSightKnown, IsRegular, IsUnfound, SeesAt};
ghost use Rattle.msr_making.specs.Places.{paths_at};

use crate::places::Places;
use msr_tree::{Facts, Kind, Tree, TreeFault};
use std::alloc::AllocError;

/// What a look at a name told, links followed.
#[derive(Clone, Copy)]
pub(crate) enum Sight {
    Found(Facts),
    /// Nothing stands there, or a link that leads nowhere.
    Nothing,
    /// The tree did not tell.
    Unknown,
}

impl Sight {
    /// What was told of a regular file.
    pub(crate) fn regular(self) -> Option<Facts>
        ensures found { IfSome result (IsRegular self) }
        ensures none { result ≡ None → IsIrregular self }
    {
        match self {
            Sight::Found(facts) if facts.kind == Kind::Regular => Some(facts),
            _ => None,
        }
    }

    fn is_nothing(self) -> bool
        ensures { result ≡ true → self ≡ Sight.Nothing }
    {
        match self {
            Sight::Nothing => true,
            Sight::Found(_) | Sight::Unknown => false,
        }
    }

    fn is_unknown(self) -> bool
        ensures yes { result ≡ true → self ≡ Sight.Unknown }
        ensures no { result ≡ false → self ≡ Sight.Unknown → ⊥ }
    {
        match self {
            Sight::Unknown => true,
            Sight::Found(_) | Sight::Nothing => false,
        }
    }
}

/// What stands under the name of the day's own file, and of those that are made of it.
#[derive(Clone, Copy)]
pub(crate) struct DayLook {
    pub(crate) input: Sight,
    pub(crate) records: Sight,
    pub(crate) report: Sight,
    pub(crate) stamp: Sight,
}

/// What a look told of a day's own file, its report and its stamp, which are all regular.
#[derive(Clone, Copy)]
pub(crate) struct DayFacts {
    pub(crate) input: Facts,
    pub(crate) report: Facts,
    pub(crate) stamp: Facts,
}

impl DayLook {
    /// What was told of these, if they are.
    pub(crate) fn regular(&self) -> Option<DayFacts>
        ensures { IfSome result (AreRegular self.now) }
    {
        let input = self.input.regular()?;
        let report = self.report.regular()?;
        let stamp = self.stamp.regular()?;
        Some(DayFacts {
            input,
            report,
            stamp,
        })
    }

    /// Whether nothing of the day is made.
    pub(crate) fn is_free(&self) -> bool
        ensures { result ≡ true → IsUnfound self.now }
    {
        self.records.is_nothing() && self.report.is_nothing() && self.stamp.is_nothing()
    }

    /// Whether nothing of the day is made, and no walk was killed that may have made something.
    pub(crate) fn is_untouched(&self, was_left: bool) -> bool
        ensures { result ≡ true → (was_left ≡ false) × IsUnfound self.now }
    {
        !was_left && self.is_free()
    }

    /// Whether the tree did not tell what may be the day's own file, or what may be made of it.
    pub(crate) fn is_uncertain(&self) -> bool
        ensures unknown { result ≡ true → HasUnknown self.now }
        ensures known { result ≡ false → IsSightKnown self.now }
    {
        match self.input {
            Sight::Unknown => true,
            Sight::Nothing => false,
            Sight::Found(_) => {
                self.records.is_unknown() | self.report.is_unknown() | self.stamp.is_unknown()
            }
        }
    }
}

/// Looks at a name.
pub(crate) fn look_at<T: Tree>(tree: &mut T, path: &str) -> Result<Sight, AllocError>
    ensures { Goes (T.went tree.old) (T.went tree.new) (SeesAt path.now result) }
{
    match tree.look_through(path) {
        Ok(Some(facts)) => Ok(Sight::Found(facts)),
        Ok(None) => Ok(Sight::Nothing),
        Err(TreeFault::Failed) => Ok(Sight::Unknown),
        Err(TreeFault::Memory) => Err(AllocError),
    }
}

/// Looks at the files of a day.
pub(crate) fn look_at_day<T: Tree>(tree: &mut T, places: Places<'_>) -> Result<DayLook, AllocError>
    ensures { Goes (T.went tree.old) (T.went tree.new) (FindsDay (paths_at places.entry) result) }
{
    let stamp = look_at(tree, places.stamp)?;
    look_beside(tree, places, stamp)
}

/// The same, once the stamp was looked at.
pub(crate) fn look_beside<T: Tree>(
    tree: &mut T,
    places: Places<'_>,
    stamp: Sight,
) -> Result<DayLook, AllocError>
    ensures { Goes (T.went tree.old) (T.went tree.new) (FindsBeside (paths_at places.entry) stamp result) }
{
    let input = look_at(tree, places.input)?;
    let records = look_at(tree, places.records)?;
    let report = look_at(tree, places.report)?;
    Ok(DayLook {
        input,
        records,
        report,
        stamp,
    })
}

fn is_one_file(one: &Facts, other: &Facts) -> bool {
    one.device == other.device && one.number == other.number
}

/// Whether what was found under a name is the day's own file, or the tree does not tell.
fn is_own<T: Tree>(
    tree: &mut T,
    input: &str,
    own: &Facts,
    path: &str,
    sight: Sight,
) -> Result<bool, AllocError>
    ensures { Goes (T.went tree.old) (T.went tree.new) (AsksForOne input.now path.now result) }
{
    match sight {
        Sight::Found(facts) if is_one_file(own, &facts) => match tree.is_one(input, path) {
            Ok(answer) => Ok(answer),
            Err(TreeFault::Failed) => Ok(true),
            Err(TreeFault::Memory) => Err(AllocError),
        },
        _ => Ok(false),
    }
}

/// Whether the day's own file is one of those that are made, or the tree does not tell. The tree is asked only of what has
/// the number of the day's own file.
pub(crate) fn is_shared<T: Tree>(
    tree: &mut T,
    places: Places<'_>,
    look: &DayLook,
) -> Result<bool, AllocError>
    ensures { Goes (T.went tree.old) (T.went tree.new) (AsksForShared (paths_at places.entry) result) }
{
    let Sight::Found(own) = look.input else {
        return Ok(false);
    };
    let is_records = is_own(tree, places.input, &own, places.records, look.records)?;
    let is_report = is_own(tree, places.input, &own, places.report, look.report)?;
    let is_stamp = is_own(tree, places.input, &own, places.stamp, look.stamp)?;
    Ok(is_records | is_report | is_stamp)
}
