//! Whether a day's file is left alone, since it was changed too late.
ghost use Rattle.std.specs.Prelude.{◌≡◌, ◌<◌, [], IfOk, true};
ghost use Rattle.msr_tree.specs.Calls.{Goes};
ghost use Rattle.msr_tree.specs.Folders.{ChangesFiles};
ghost use Rattle.msr_tree.specs.Reads.{OnlyLooks};

use msr_folders::{days_before, is_later};
use msr_tree::{Kind, Time, Tree, TreeFault};
use std::alloc::AllocError;

/// Whether the regular file to which a name leads was changed less than so many days before now, or later; never with 0
/// days.
pub fn is_young<T: Tree>(
    tree: &mut T,
    input: &str,
    days: u32,
    now: Time,
) -> Result<bool, AllocError>
    ensures asked { IfOk result (λ young. young ≡ true → 0 < days) }
    ensures goes { Goes (T.went tree.old) (T.went tree.new) (ChangesFiles []) }
    ensures looks { Goes (T.went tree.old) (T.went tree.new) OnlyLooks }
{
    let Some(limit) = days_before(now, days) else {
        return Ok(false);
    };
    match tree.look_through(input) {
        Ok(Some(facts)) => { Ok(facts.kind == Kind::Regular && is_later(facts.changed, limit)) }
        Ok(None) | Err(TreeFault::Failed) => Ok(false),
        Err(TreeFault::Memory) => Err(AllocError),
    }
}
