//! What a crash leaves of the steps of a tree in memory.
ghost use Rattle.std.specs.Prelude.{◌≡◌, ◌∷◌, option_map, Some, true, false};
ghost use Rattle.msr_tree.specs.Memory.{file_of, settles, step_of, steps_kept};
ghost use Rattle.msr_tree.specs.Steps.{IsStored, MayLead, MayLeave, ShowsAfter};

use crate::memory::choices::Choices;
use crate::memory::deed::Deed;
use crate::memory::deeds::{Found, find};
use crate::paths::folder_above;

/// Whether a step stores the folder of a name.
fn settles(deed: &Deed, name: &str) -> bool
    ensures { result ≡ settles (step_of deed.now) name.now }
{
    match deed {
        Deed::FolderStored(at) => folder_above(name) == at.as_str(),
        _ => false,
    }
}

/// The file to which a name leads after a crash.
fn lead<'a>(deeds: &'a [Deed], name: &str, choices: &mut Choices) -> Option<Found<'a>>
    ensures { MayLead (steps_kept deeds.now) name.now (option_map file_of result) }
{
    let mut rest = deeds;
    while let Some((deed, before)) = rest.split_last() {
        if settles(deed, name) | (choices.among(2) == 1) {
            return find(rest, name);
        }
        rest = before;
    }
    None
}

/// Whether a step stores the bytes of a file.
fn stores(deed: &Deed, before: &[Deed], file: Found<'_>) -> bool
    ensures { result ≡ false → IsStored (step_of deed.now ∷ steps_kept before.now) (file_of file.entry)
        → IsStored (steps_kept before.now) (file_of file.entry) }
{
    match deed {
        Deed::FileStored(at) => match find(before, at.as_str()) {
            Some(found) => found.made == file.made,
            None => false,
        },
        _ => false,
    }
}

/// Whether the bytes of a file are on the disk.
fn is_stored(deeds: &[Deed], file: Found<'_>) -> bool
    ensures { IsStored (steps_kept deeds.now) (file_of file.entry) → result ≡ true }
{
    let mut rest = deeds;
    while let Some((deed, before)) = rest.split_last() {
        if stores(deed, before, file) {
            return true;
        }
        rest = before;
    }
    false
}

/// What is seen of a file after a crash.
fn shown<'a>(deeds: &[Deed], file: Found<'a>, choices: &mut Choices) -> Option<Found<'a>>
    ensures { ShowsAfter (steps_kept deeds.now) (Some (file_of file.entry)) (option_map (λ left. left.bytes.now) result) }
{
    if is_stored(deeds, file) {
        return Some(file);
    }
    match choices.among(4) {
        0 => Some(file),
        1 => Some(file.cut(file.bytes.len() / 2)),
        2 => Some(file.cut(0)),
        _ => None,
    }
}

/// What is seen under a name after a crash.
pub(super) fn left<'a>(deeds: &'a [Deed], name: &str, choices: &mut Choices) -> Option<Found<'a>>
    ensures { MayLeave (steps_kept deeds.now) name.now (option_map (λ left. left.bytes.now) result) }
{
    let file = lead(deeds, name, choices)?;
    shown(deeds, file, choices)
}
