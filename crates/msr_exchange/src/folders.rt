//! What killed runs left in the folders of an archive.
ghost use Rattle.std.specs.Prelude.{[], ◌∷◌};
ghost use Rattle.msr_tree.specs.Acts.{Acts};
ghost use Rattle.msr_tree.specs.Calls.{Goes};
ghost use Rattle.msr_exchange.specs.Moves.{Clears};
ghost use Rattle.msr_exchange.specs.Names.{path_below};
ghost use Rattle.msr_exchange.specs.Work.{parts_in};

use crate::work::DayWork;
use msr_tree::{Tree, TreeFault};
use std::alloc::Global;

fn clear_part<T: Tree>(
    tree: &mut T,
    alloc: Global,
    top: &str,
    folder: &str,
    name: &str,
) -> Result<(), TreeFault>
    ensures { Goes (T.went tree.old) (T.went tree.new)
        (Acts (path_below top.now (path_below folder.now name.now) ∷ []) (Clears (path_below top.now (path_below folder.now name.now) ∷ [])) result) }
{
    let path = format!(in alloc; "{top}/{folder}/{name}")?;
    tree.remove(path.as_str())
}

/// Removes from a folder of ROOT, OUT and ASIDE what a killed run was about to give a name.
pub fn clear_parts<T: Tree>(tree: &mut T, work: &DayWork<'_>, folder: &str) -> Result<(), TreeFault>
    ensures { Goes (T.went tree.old) (T.went tree.new)
        (Acts (parts_in work.now folder.now) (Clears (parts_in work.now folder.now)) result) }
{
    let alloc = work.alloc;
    clear_part(tree, alloc, work.root, folder, ".msrepack-replace.day")?;
    clear_part(tree, alloc, work.out, folder, ".msrepack-replace.records")?;
    clear_part(
        tree,
        alloc,
        work.aside,
        folder,
        ".msrepack-replace.original",
    )?;
    clear_part(tree, alloc, work.aside, folder, ".msrepack-replace.note")
}
