//! The division of differences that is written.

ghost use Rattle.std.specs.Prelude.{◌≡◌, ◌<◌, ◌≤◌, ℤ, List, IfOk, IfSome, IsNone, length, map};
ghost use Rattle.msr_base.specs.declared.storage.Version.{Version};
ghost use Rattle.msr_base.specs.declared.storage.Version.TheVariants.{One, Two};
ghost use Rattle.std.specs.List.{AllByRecursion};
ghost use Rattle.msr_steim.specs.Word.{FitsBits};
ghost use Rattle.msr_base.specs.Lengths.{bytes_of};
ghost use Rattle.msr_base.specs.RecordLength.{words_of};
ghost use Rattle.msr_words.specs.Division.{CanDivide};
ghost use Rattle.msr_words.specs.Existence.{DivisionExists};
ghost use Rattle.msr_words.specs.Fit.{most_counted};
ghost use Rattle.msr_words.specs.Groups.{IsCapacity};
ghost use Rattle.msr_words.specs.Canonical.{IsCanonicalDivision};
ghost use Rattle.msr_words.specs.FirstGroup.{AreSizes};

use crate::counts::steim2_capacity;
use crate::first_group::sizes_of;
use crate::kinds::MOST_COUNTED;
use msr_base::{Length, Version};
use msr_steim::{Group, all_fit_bits};
use std::alloc::{AllocError, Global};

/// For each difference the size of the group that begins there in the division that is written.
fn group_sizes(alloc: Global, differences: &[i64]) -> Result<Vec<u8>, AllocError>
    requires { AllByRecursion (FitsBits 32) differences.now }
    ensures { IfOk result (λ sizes. AreSizes differences.now 0 sizes.items) }
{
    sizes_of(alloc, differences.len(), |at| differences[at])
}

/// A group of these differences.
fn group_of(differences: &[i64]) -> Group
    requires few { length differences.now ≤ 7 }
    requires fit { AllByRecursion (FitsBits 32) differences.now }
    ensures { result.items ≡ differences.now }
{
    let mut group = Group::new();
    for difference in differences {
        group.push(*difference as i32);
    }
    group
}

/// The groups of Steim-1, by the size of each.
fn steim1_groups(
    alloc: Global,
    words: u32,
    differences: &[i64],
) -> Result<Option<Vec<Group>>, AllocError>
    ensures chosen { IfOk result (λ o. IfSome o (λ groups. IsCanonicalDivision One
        (map (λ g. g.items) groups.items) differences.now)) }
    ensures few { IfOk result (λ o. IfSome o (λ groups. length groups.items ≤ words)) }
    ensures none { IfOk result (λ o. IsNone o → CanDivide One words differences.now → ⊥) }
{
    if !all_fit_bits(differences, 32) {
        return Ok(None);
    }
    let sizes = group_sizes(alloc, differences)?;
    let mut groups = Vec::new(alloc);
    let mut at = 0;
    while at < differences.len() {
        if groups.len() >= words as usize {
            return Ok(None);
        }
        let rest = &differences[at..];
        let size = usize::from(sizes[at]);
        groups.push(group_of(&rest[..size]))?;
        at += size;
    }
    Ok(Some(groups))
}

/// A difference that stands in a word with others of its size.
fn word_part(difference: i64, capacity: u8) -> i32
    requires size { IsCapacity difference capacity }
    requires some { 0 < capacity }
    ensures { result ≡ difference }
{
    difference as i32
}

/// The groups of Steim-2. Each part of a group is a group, so it is enough to take the longest one from
/// the first difference on: a group ends where the next difference has no room in its word.
fn steim2_groups(
    alloc: Global,
    words: u32,
    differences: &[i64],
) -> Result<Option<Vec<Group>>, AllocError>
    requires { 0 < words }
    ensures chosen { IfOk result (λ o. IfSome o (λ groups. IsCanonicalDivision Two
        (map (λ g. g.items) groups.items) differences.now)) }
    ensures few { IfOk result (λ o. IfSome o (λ groups. length groups.items ≤ words)) }
    ensures none { IfOk result (λ o. IsNone o → CanDivide Two words differences.now → ⊥) }
{
    let room_for = words as usize;
    let mut groups = Vec::with_capacity(alloc, room_for.min(differences.len()))?;
    let mut group = Group::new();
    let mut most = 7u8;
    for difference in differences {
        let capacity = steim2_capacity(*difference);
        let room = most.min(capacity);
        if group.len() < usize::from(room) {
            group.push(word_part(*difference, capacity));
            most = room;
            continue;
        }
        if capacity == 0 || room_for <= groups.len() + 1 {
            return Ok(None);
        }
        groups.push(group)?;
        group = Group::new();
        group.push(word_part(*difference, capacity));
        most = capacity;
    }
    if !group.is_empty() {
        groups.push(group)?;
    }
    Ok(Some(groups))
}

/// The groups in which a record of this length has these differences, if it has room and can count them: no division
/// has fewer groups, and each group in turn is the longest with which there are no more.
pub fn groups(
    alloc: Global,
    version: Version,
    differences: &[i64],
    record_length: Length,
) -> Result<Option<Vec<Group>>, AllocError>
    ensures chosen { IfOk result (λ o. IfSome o (λ groups. IsCanonicalDivision version
        (map (λ g. g.items) groups.items) differences.now)) }
    ensures few { IfOk result (λ o. IfSome o (λ groups. length groups.items ≤ words_of (bytes_of record_length))) }
    ensures counted { IfOk result (λ o. IfSome o (λ _. length differences.now ≤ most_counted)) }
    ensures none { IfOk result (λ o. IsNone o → length differences.now ≤ most_counted
        → CanDivide version (words_of (bytes_of record_length)) differences.now → ⊥) }
{
    let words = record_length.data_words();
    if differences.len() > MOST_COUNTED {
        return Ok(None);
    }
    match version {
        Version::One => steim1_groups(alloc, words, differences),
        Version::Two => steim2_groups(alloc, words, differences),
    }
}

/// Differences that can be divided have a canonical division.
pub fn division_exists()
    ensures { DivisionExists }
{}

/// One division of some differences is chosen.
pub fn one_division()
    ensures { (version : Version) (groups others : List (List ℤ)) (ds : List ℤ)
        → IsCanonicalDivision version groups ds → IsCanonicalDivision version others ds → groups ≡ others }
{}
