//! The files of a day change places in memory, there and back: one call fails, and then the power is cut. What is tried is
//! the tree in memory, with its failures and crashes: of the exchange all of this is proved.
ghost use Rattle.msr_exchange.specs.Names.{AreNames};

use Way::{Back, There};
use msr_exchange::{DayNames, DayWork, Place, Told, Verified, replace_day, restore_day};
use msr_fixtures::{expect, next_of};
use msr_sds::SdsName;
use msr_tree::{Choices, Ending, Failure, MemoryTree, Tree, TreeFault};
use std::alloc::Global;
use std::test::Fail;

const PATH: &str = "2020/XX/STA/HHZ.D/XX.STA..HHZ.D.2020.001";

/// More than a way has.
const CALLS: u64 = 40;

const CRASHES: u64 = 16;

#[derive(Clone, Copy, PartialEq, Eq)]
enum Way {
    /// The records get the place of the original.
    There,
    Back,
}

fn has(tree: &MemoryTree, names: &DayNames, place: Place, bytes: &[u8]) -> bool {
    match tree.seen(names.at(place)) {
        Some(found) => found == bytes,
        None => false,
    }
}

fn has_original(tree: &MemoryTree, names: &DayNames, place: Place) -> bool {
    has(tree, names, place, b"the original")
}

fn has_records(tree: &MemoryTree, names: &DayNames, place: Place) -> bool {
    has(tree, names, place, b"records")
}

/// Whether one of the two files has the day's name in ROOT, and each of the two that or its own.
fn keeps_both(tree: &MemoryTree, names: &DayNames) -> bool {
    let original = has_original(tree, names, Place::Day);
    let records = has_records(tree, names, Place::Day);
    let is_original_kept = original | has_original(tree, names, Place::Original);
    let are_records_kept = records | has_records(tree, names, Place::Records);
    (original | records) & is_original_kept & are_records_kept
}

/// Whether the other file has the day's name, and the one its own.
fn have_changed(tree: &MemoryTree, names: &DayNames, way: Way) -> bool {
    match way {
        There => has_records(tree, names, Place::Day) & has_original(tree, names, Place::Original),
        Back => has_original(tree, names, Place::Day) & has_records(tree, names, Place::Records),
    }
}

fn day_in_root(alloc: Global, names: &DayNames) -> Result<MemoryTree, TreeFault> {
    let mut tree = MemoryTree::new(alloc);
    tree.with(names.at(Place::Day), b"the original")?;
    tree.with(names.at(Place::Records), b"records")?;
    Ok(tree)
}

fn go_there(tree: &mut MemoryTree, names: &DayNames) -> Result<Told, TreeFault>
    requires { AreNames names.now }
{
    let file = tree.look(names.at(Place::Day))?;
    let records = tree.look(names.at(Place::Records))?;
    let (Some(file), Some(records)) = (file, records) else {
        return Err(TreeFault::Failed);
    };
    let verified = Verified {
        file,
        records,
        touch: false,
    };
    replace_day(tree, names, &verified)
}

/// A call of the way fails.
fn go(
    tree: &mut MemoryTree,
    names: &DayNames,
    way: Way,
    failure: Failure,
) -> Result<Told, TreeFault>
    requires { AreNames names.now }
{
    match way {
        There => {
            tree.fail(Some(failure));
            go_there(tree, names)
        }
        Back => {
            go_there(tree, names)?;
            tree.fail(Some(failure));
            restore_day(tree, names)
        }
    }
}

/// Whether each of some crashes leaves what is promised of a tree.
fn leaves(tree: &MemoryTree, names: &DayNames, way: Way, is_done: bool) -> Result<bool, TreeFault> {
    let mut number = 1;
    let mut kept = true;
    for _ in 0..CRASHES {
        let after = tree.crash(&mut Choices { number })?;
        kept &= keeps_both(&after, names) & (!is_done | have_changed(&after, names, way));
        number = next_of(number);
    }
    Ok(kept)
}

/// Whether what is promised holds if a call fails; the last number is that of none.
fn keeps_after(
    alloc: Global,
    names: &DayNames,
    way: Way,
    failure: Failure,
) -> Result<bool, TreeFault>
    requires { AreNames names.now }
{
    let mut tree = day_in_root(alloc, names)?;
    let told = go(&mut tree, names, way, failure);
    let is_done = told == Ok(Told::Done);
    let is_failed = told == Err(TreeFault::Failed);
    if ((failure.call == 0) & !is_failed) | ((failure.call == CALLS) & !is_done) {
        return Ok(false);
    }
    leaves(&tree, names, way, is_done)
}

/// Whether it holds whichever call fails.
fn keeps_always(
    alloc: Global,
    names: &DayNames,
    way: Way,
    ending: Ending,
) -> Result<bool, TreeFault>
    requires { AreNames names.now }
{
    for call in 0..=CALLS {
        if !keeps_after(alloc, names, way, Failure { call, ending })? {
            return Ok(false);
        }
    }
    Ok(true)
}

/// Whether it holds for a day.
fn keeps(alloc: Global, way: Way, ending: Ending) -> Result<bool, TreeFault> {
    let Ok(_) = SdsName::parse(PATH) else {
        return Ok(false);
    };
    let work = DayWork {
        alloc,
        root: "root",
        out: "out",
        reports: "reports",
        aside: "aside",
        only_smaller: false,
        changed_before: None,
        touch: false,
        int24: false,
    };
    let names = DayNames::new(&work, PATH)?;
    keeps_always(alloc, &names, way, ending)
}

const ROWS: &[(&str, Way, Ending)] = &[
    ("there, a call has done nothing", There, Ending::Nothing),
    ("there, a call has done a part", There, Ending::Part),
    ("there, a call has done all", There, Ending::All),
    ("back, a call has done nothing", Back, Ending::Nothing),
    ("back, a call has done a part", Back, Ending::Part),
    ("back, a call has done all", Back, Ending::All),
];

#[test]
fn both_files_are_kept_whatever_fails(rt: HostRuntime) -> Result<(), Fail> {
    for (name, way, ending) in ROWS {
        if keeps(rt.alloc(), *way, *ending) != Ok(true) {
            return expect(false, name);
        }
    }
    Ok(())
}
