//! What the words of a command line ask for.
ghost use Rattle.std.specs.Prelude.{◌≡◌, ◌≢◌, ◌<◌, ◌≤◌, ◌↔◌, ℕ, length, codes, false, slice_get, Some, IfOk, IfErr, IfSome, IsSome, IsSomeAnd, IsOk, IsOkAnd, IsErrAnd, IsTrue, Ok, Err, Any, drop, map, option_map, true};
ghost use Rattle.msr_base.specs.RecordLength.{IsRecordLength};
ghost use Rattle.clap.specs.Words.{first_value, found_of, kind_of, one_text};
ghost use Rattle.msr_arguments.specs.Found.{AsksArchive, AsksBelow, AsksCheck, AsksDays, AsksFlags, AsksFolders, AsksKnown, AsksOptions, AsksPlaces, AsksReplace, AsksTask, AsksTelling, AsksVerify, EndsFor, EndsWith, IsBadLine, IsFlagOf, IsFormOf, IsKindsOf, IsLengthOf, IsNumberOf, IsToldByClap, IsWrong, length_in, line_fault_text, without_slash};
ghost use Rattle.msr_arguments.specs.Rules.{IsFoundFor, HasNeeded, HoldsDays, HoldsTolerance, folder_rules};
ghost use Rattle.msr_options.specs.Asked.{AsksAlone, AsksDryRun, HasStatus, ask_help};
ghost use Rattle.msr_options.specs.Tasks.{AreApart, AreBothStandard, HasTolerance, IsDefault, IsTolerance, IsTrial, KeepsInput, KeepsOriginals, Overlap, StandApart, verb_of, word_of};

use crate::commands::{command_line, length_alone, program_line};
use crate::dry_run::read_command;
use clap::ArgMatches;
use clap::error::ErrorKind;
use msr_base::{Kinds, Length};
use msr_options::{
    Archiving, Checking, Comparing, DayOptions, Ending, Feeding, Folders, Known, ListForm, Listing,
    Names, NoTask, Options, Repacking, Replacing, Task, Telling, Verb, Verifying, overlap,
};
use msr_sds::levels_below;
use std::alloc::{AllocError, Global};

/// The length of written records if none is asked for.
const LENGTH: u32 = 512;

/// The tolerance in microseconds if none is asked for.
const TOLERANCE: u32 = 1000;

/// What is done if there are no words.
fn default_task<'a>() -> Task<'a>
    ensures default { IsDefault result }
    ensures tolerance { HasTolerance result }
    ensures keeps_input { KeepsInput result }
{
    let length = Length::new(LENGTH).unwrap();
    Task::Repack(Repacking {
        options: Options::new(length, TOLERANCE).unwrap(),
        input: "-",
        output: None,
    })
}

/// What is wrong with a command line that clap lets through.
#[derive(Clone, Copy)]
pub(crate) enum LineFault<'a> {
    /// A length's text that is no number.
    NoNumber(&'a str),
    NotALength,
    SameFile,
    OneStandardInput,
    NotBelow,
    Overlap,
    /// The originals would get the time of now when they are put back.
    TouchedOriginals,
    Memory,
}

/// The answer to a command that has that fault.
pub(crate) fn refused(alloc: Global, fault: LineFault<'_>) -> NoTask
    ensures text { IfSome (line_fault_text fault.entry) (λ text. IsWrong text result) }
    ensures other { fault.entry ≡ LineFault.NotALength → result ≡ NoTask.NotALength }
    ensures status { IsBadLine result }
{
    let text = match fault {
        LineFault::NoNumber(text) => return no_number(alloc, text),
        LineFault::NotALength => return NoTask::NotALength,
        LineFault::Memory => return NoTask::Memory,
        LineFault::SameFile => "msrepack: the output is the input\n",
        LineFault::OneStandardInput => "msrepack: only one input can be standard input\n",
        LineFault::NotBelow => "msrepack: not a folder of an archive\n",
        LineFault::Overlap => "msrepack: the folders overlap\n",
        LineFault::TouchedOriginals => "msrepack: --undo takes no --touch\n",
    };
    match String::from_str(alloc, text) {
        Ok(text) => NoTask::Ending(Ending { text, status: 2 }),
        Err(AllocError) => NoTask::Memory,
    }
}

/// What clap says of a length that is no number. It takes `-0` for 0, which is no record length.
fn no_number(alloc: Global, text: &str) -> NoTask
    ensures { IsBadLine result }
{
    let Ok(command) = length_alone(alloc) else {
        return NoTask::Memory;
    };
    match command.try_get_matches_from(["msrepack", "--length", text].as_slice()) {
        Ok(_) => NoTask::NotALength,
        Err(error) => ending_with(alloc, &error, 2),
    }
}

/// The answer to a line that clap does not let through: help, the version, or what is wrong.
pub(crate) fn ending_of(alloc: Global, error: &clap::Error) -> NoTask
    ensures { EndsFor (kind_of error.now) result }
{
    ending_with(alloc, error, if error.use_stderr() { 2 } else { 0 })
}

/// What clap says of a line that it does not let through, with this status.
fn ending_with(alloc: Global, error: &clap::Error, status: u8) -> NoTask
    ensures { EndsWith (kind_of error.now) status result }
{
    if error.kind() == ErrorKind::OutOfMemory {
        return NoTask::Memory;
    }
    match error.to_string(alloc) {
        Ok(text) => NoTask::Ending(Ending { text, status }),
        Err(AllocError) => NoTask::Memory,
    }
}

/// The name of a file or folder.
pub(crate) fn file_in<'a>(found: &ArgMatches<'a>, name: &str) -> &'a str
    requires { IsSome (first_value (found_of found.now) name.now) }
    ensures { first_value (found_of found.now) name.now ≡ Some result.now }
{
    found.get_str(name).unwrap()
}

fn number_in(found: &ArgMatches<'_>, name: &str) -> Option<u32>
    ensures { IsNumberOf (one_text (found_of found.now) name.now) result }
{
    found.get_one::<u32>(name)
}

/// The number of bytes that a length's text is, 512 without a text.
fn number_of<'a>(length: Option<&'a str>) -> Result<u32, LineFault<'a>>
    ensures asked { IfOk result (IsLengthOf (option_map (λ text. text.now) length.entry)) }
    ensures given { (bytes : ℕ) → IsLengthOf (option_map (λ text. text.now) length.entry) bytes → result ≡ Ok bytes }
    ensures text { IfErr result (λ fault. IsSomeAnd length.entry (λ text. fault ≡ LineFault.NoNumber text)) }
{
    match length {
        Some(text) => text.parse().ok().ok_or(LineFault::NoNumber(text)),
        None => Ok(LENGTH),
    }
}

fn flag_in(found: &ArgMatches<'_>, name: &str) -> bool
    ensures { IsFlagOf (one_text (found_of found.now) name.now) result }
{
    found.get_flag(name)
}

/// The options that clap found, with that length. The commands `list` and `compare` take none, and do not use the one
/// that is given here.
fn options_in<'a>(found: &ArgMatches<'a>, length: Option<&'a str>) -> Result<Options, LineFault<'a>>
    requires { HoldsTolerance (found_of found.now) }
    ensures asked { IfOk result (AsksOptions (found_of found.now) (option_map (λ text. text.now) length.entry)) }
    ensures given { (bytes : ℕ) → IsLengthOf (option_map (λ text. text.now) length.entry) bytes →
        IsRecordLength bytes → IsOk result }
    ensures other { (bytes : ℕ) → IsLengthOf (option_map (λ text. text.now) length.entry) bytes →
        ¬ (IsRecordLength bytes) → result ≡ Err LineFault.NotALength }
    ensures tolerance { IfOk result (λ options. IsTolerance options.tolerance) }
{
    let Some(length) = Length::new(number_of(length)?) else {
        return Err(LineFault::NotALength);
    };
    let tolerance = number_in(found, "tolerance").unwrap();
    let kinds = if flag_in(found, "no-int24") {
        Kinds::WithoutInt24
    } else {
        Kinds::All
    };
    let options = Options::new(length, tolerance).unwrap();
    Ok(options.strict(flag_in(found, "strict")).kinds(kinds))
}

/// Whether one of the folders is that one, or either stands below the other, by their names.
fn overlaps_one(folders: &[&str], folder: &str) -> bool
    ensures { IsTrue result ↔ Any (λ other. Overlap other.now folder.now) folders.now }
{
    folders.iter().any(|other| overlap(other, folder))
}

/// The folder's path without the slash at its end with which a shell completes it.
fn without_slash<'a>(folder: &'a str) -> &'a str
    ensures { result.now ≡ without_slash folder.now }
{
    folder.strip_suffix('/').unwrap_or(folder)
}

/// The folders of an archive as they were given, each without the slash at its end.
fn folders_named<'a>(alloc: Global, given: &[&'a str]) -> Result<Vec<&'a str>, AllocError>
    ensures { IfOk result (λ folders. map (λ folder. folder.now) folders.items
        ≡ map (λ folder. without_slash folder.now) given.now) }
{
    given
        .iter()
        .map(|folder| without_slash(*folder))
        .collect(alloc)
}

/// The folders of an archive that are to be walked: paths of names, of which no two overlap.
pub(crate) fn below_in<'a>(
    alloc: Global,
    found: &ArgMatches<'a>,
) -> Result<Vec<&'a str>, LineFault<'a>>
    ensures asked { IfOk result (λ below. AsksBelow (found_of found.now) (map (λ folder. folder.now) below.items)) }
    ensures apart { IfOk result (λ below. AreApart (map (λ folder. folder.now) below.items)) }
{
    let Some(given) = found.get_strs("below") else {
        return Ok(Vec::new(alloc));
    };
    let Ok(folders) = folders_named(alloc, given) else {
        return Err(LineFault::Memory);
    };
    check_places(folders.as_slice())?;
    Ok(folders)
}

/// Refuses folders that are no paths of names, or of which two overlap.
fn check_places<'a>(below: &[&str]) -> Result<(), LineFault<'a>>
    ensures { IfOk result (λ nothing. AreApart (map (λ folder. folder.now) below.now)) }
{
    for place in 0..below.len() {
        if levels_below(below[place]).is_none() {
            return Err(LineFault::NotBelow);
        }
        if overlaps_one(&below[..place], below[place]) {
            return Err(LineFault::Overlap);
        }
    }
    Ok(())
}

/// How lines are to be told, as clap found it.
fn telling_in(found: &ArgMatches<'_>) -> Telling
    ensures { AsksTelling (found_of found.now) result }
{
    Telling {
        form: ListForm::asked(flag_in(found, "json")),
        quiet: flag_in(found, "quiet"),
    }
}

/// The file with lines of earlier runs that clap found, if there is one.
fn known_in<'a>(found: &ArgMatches<'a>) -> Known<'a>
    ensures { AsksKnown (found_of found.now) result }
{
    match found.get_str("known") {
        Some(name) => Known::File(name),
        None => Known::Nothing,
    }
}

/// What is asked of the days of an archive. If each is to have the length of its first record, that of the options is
/// the one without a text.
pub(crate) fn days_in<'a>(found: &ArgMatches<'a>) -> Result<DayOptions, LineFault<'a>>
    requires tolerance { HoldsTolerance (found_of found.now) }
    requires days { HoldsDays (found_of found.now) }
    ensures asked { IfOk result (AsksDays (found_of found.now)) }
    ensures tolerance { IfOk result (λ days. IsTolerance days.options.tolerance) }
{
    let length = found.get_str("length");
    let same_length = length == Some("same");
    let options = options_in(found, if same_length { None } else { length })?;
    Ok(days_with(found, options, same_length))
}

/// What is asked of the days of an archive, with these options.
fn days_with(found: &ArgMatches<'_>, options: Options, same_length: bool) -> DayOptions
    requires { HoldsDays (found_of found.now) }
    ensures flags { AsksFlags (found_of found.now) result }
    ensures older_than { IsNumberOf (one_text (found_of found.now) (codes "older-than")) (Some result.older_than) }
    ensures telling { AsksTelling (found_of found.now) result.telling }
    ensures given { (result.options ≡ options) × (result.same_length ≡ same_length) }
{
    DayOptions {
        options,
        same_length,
        resume: flag_in(found, "resume"),
        check: flag_in(found, "check"),
        only_smaller: flag_in(found, "only-smaller"),
        keep_old: flag_in(found, "keep-old"),
        older_than: older_than_in(found),
        names: Names::asked(flag_in(found, "names")),
        bytes: flag_in(found, "bytes"),
        telling: telling_in(found),
    }
}

/// The archive that clap found.
fn archiving_in<'a>(alloc: Global, found: &ArgMatches<'a>) -> Result<Task<'a>, LineFault<'a>>
    requires { IsFoundFor Verb.Archive (found_of found.now) }
    ensures asked { IfOk result (λ task. (verb_of task ≡ Verb.Archive) × AsksTask (found_of found.now) task) }
    ensures kept_days { IfOk result (λ task. ¬ (IsTrial task)) }
    ensures kept { IfOk result (λ task. HasTolerance task × KeepsInput task) }
{
    let days = days_in(found)?;
    let Verifying {
        folders,
        below,
        known,
        ..
    } = verifying_in(alloc, found)?;
    Ok(Task::Archive(Archiving {
        folders,
        below,
        days,
        known,
    }))
}

/// The archive that clap found, whose repack is to be verified.
fn verifying_in<'a>(alloc: Global, found: &ArgMatches<'a>) -> Result<Verifying<'a>, LineFault<'a>>
    requires { HasNeeded folder_rules (found_of found.now) }
    ensures asked { IfOk result (AsksVerify (found_of found.now)) }
    ensures apart { IfOk result (λ asked. StandApart asked.folders) }
{
    let below = below_in(alloc, found)?;
    let root = file_in(found, "ROOT");
    let out = file_in(found, "OUT");
    let reports = file_in(found, "REPORTS");
    let folders = Folders { root, out, reports };
    if !folders.stand_apart() {
        return Err(LineFault::Overlap);
    }
    Ok(Verifying {
        folders,
        below,
        names: flag_in(found, "names"),
        telling: telling_in(found),
        known: known_in(found),
    })
}

/// For how many days files have to be unchanged.
fn older_than_in(found: &ArgMatches<'_>) -> u32
    requires { HoldsDays (found_of found.now) }
    ensures { IsNumberOf (one_text (found_of found.now) (codes "older-than")) (Some result) }
{
    number_in(found, "older-than").unwrap()
}

/// The archive that clap found, whose originals are to change places with their records.
fn replacing_in<'a>(alloc: Global, found: &ArgMatches<'a>) -> Result<Task<'a>, LineFault<'a>>
    requires { IsFoundFor Verb.Replace (found_of found.now) }
    ensures asked { IfOk result (λ task. (verb_of task ≡ Verb.Replace) × AsksTask (found_of found.now) task) }
    ensures kept { IfOk result (λ task. HasTolerance task × KeepsInput task) }
{
    let Verifying { folders, below, .. } = verifying_in(alloc, found)?;
    let aside = file_in(found, "ASIDE");
    if !folders.are_apart_from(aside) {
        return Err(LineFault::Overlap);
    }
    let undo = flag_in(found, "undo");
    let touch = flag_in(found, "touch");
    if undo && touch {
        return Err(LineFault::TouchedOriginals);
    }
    Ok(Task::Replace(Replacing {
        folders,
        aside,
        below,
        undo,
        only_smaller: flag_in(found, "only-smaller"),
        older_than: older_than_in(found),
        touch,
        int24: flag_in(found, "int24"),
    }))
}

/// The file to be repacked that clap found.
fn repacking_in<'a>(found: &ArgMatches<'a>) -> Result<Task<'a>, LineFault<'a>>
    requires { IsFoundFor Verb.Repack (found_of found.now) }
    ensures asked { IfOk result (λ task. (verb_of task ≡ Verb.Repack) × AsksTask (found_of found.now) task) }
    ensures kept { IfOk result (λ task. HasTolerance task × KeepsInput task) }
{
    let options = options_in(found, found.get_str("length"))?;
    let input = file_in(found, "IN");
    let output = found.get_str("OUT");
    if output == Some(input) {
        return Err(LineFault::SameFile);
    }
    Ok(Task::Repack(Repacking {
        options,
        input,
        output,
    }))
}

/// The file whose segments are to be listed that clap found.
fn listing_in<'a>(found: &ArgMatches<'a>) -> Result<Task<'a>, LineFault<'a>>
    requires { IsFoundFor Verb.List (found_of found.now) }
    ensures asked { IfOk result (λ task. (verb_of task ≡ Verb.List) × AsksTask (found_of found.now) task) }
    ensures tolerance { IfOk result HasTolerance }
{
    let options = options_in(found, found.get_str("length"))?;
    let form = ListForm::asked(flag_in(found, "json"));
    let input = file_in(found, "IN");
    Ok(Task::List(Listing {
        options,
        form,
        input,
    }))
}

/// What is to be fed that clap found.
fn feeding_in<'a>(found: &ArgMatches<'a>) -> Result<Task<'a>, LineFault<'a>>
    requires { IsFoundFor Verb.Feed (found_of found.now) }
    ensures asked { IfOk result (λ task. (verb_of task ≡ Verb.Feed) × AsksTask (found_of found.now) task) }
    ensures tolerance { IfOk result HasTolerance }
{
    let options = options_in(found, found.get_str("length"))?;
    let report = file_in(found, "REPORT");
    Ok(Task::Feed(Feeding { options, report }))
}

/// Whether both names stand for standard input.
fn are_both_standard(one: &str, other: &str) -> bool
    ensures { IsTrue result ↔ AreBothStandard one.now other.now }
{
    one == "-" && other == "-"
}

/// The files to be compared that clap found.
fn comparing_in<'a>(found: &ArgMatches<'a>) -> Result<Task<'a>, LineFault<'a>>
    requires { IsFoundFor Verb.Compare (found_of found.now) }
    ensures asked { IfOk result (λ task. (verb_of task ≡ Verb.Compare) × AsksTask (found_of found.now) task) }
    ensures kept { IfOk result (λ task. HasTolerance task × KeepsInput task) }
{
    let options = options_in(found, found.get_str("length"))?;
    let one = file_in(found, "ONE");
    let other = file_in(found, "OTHER");
    if are_both_standard(one, other) {
        return Err(LineFault::OneStandardInput);
    }
    Ok(Task::Compare(Comparing {
        options,
        one,
        other,
    }))
}

/// The task of this command, by the arguments that clap found.
fn task_in<'a>(alloc: Global, verb: Verb, found: &ArgMatches<'a>) -> Result<Task<'a>, LineFault<'a>>
    requires { IsFoundFor verb (found_of found.now) }
    ensures command { IfOk result (λ task. verb_of task ≡ verb) }
    ensures asked { IfOk result (AsksTask (found_of found.now)) }
    ensures kept { IfOk result (λ task. HasTolerance task × KeepsInput task) }
    ensures check { verb ≡ Verb.Check → IsOk result }
    ensures no_trial { IfOk result (λ task. ¬ (IsTrial task)) }
{
    match verb {
        Verb::Repack => repacking_in(found),
        Verb::List => listing_in(found),
        Verb::Check => {
            let packed = file_in(found, "PACKED");
            let report = file_in(found, "REPORT");
            Ok(Task::Check(Checking { packed, report }))
        }
        Verb::Compare => comparing_in(found),
        Verb::Archive => archiving_in(alloc, found),
        Verb::Verify => Ok(Task::Verify(verifying_in(alloc, found)?)),
        Verb::Replace => replacing_in(alloc, found),
        Verb::Feed => feeding_in(found),
    }
}

/// What clap finds in these words, which begin with that of the command.
pub(crate) fn read_line<'a>(
    alloc: Global,
    verb: Verb,
    words: &'a [&'a str],
) -> Result<ArgMatches<'a>, NoTask>
    ensures found { IfOk result (λ found. IsFoundFor verb (found_of found)) }
    ensures told { IfErr result (IsToldByClap (ask_help (drop 1 (map (λ word. word.now) words.now)) ≡ true)) }
{
    match command_line(alloc, verb)?.try_get_matches_from(words) {
        Ok(found) => Ok(found),
        Err(error) => Err(ending_of(alloc, &error)),
    }
}

/// The task of a command, or what is said if it has a fault that clap lets through.
pub(crate) fn task_of<'a>(
    alloc: Global,
    verb: Verb,
    found: &ArgMatches<'a>,
) -> Result<Task<'a>, NoTask>
    requires { IsFoundFor verb (found_of found.now) }
    ensures command { IfOk result (λ task. verb_of task ≡ verb) }
    ensures kept { IfOk result (λ task. HasTolerance task × KeepsInput task) }
    ensures status { IfErr result IsBadLine }
    ensures no_trial { IfOk result (λ task. ¬ (IsTrial task)) }
{
    match task_in(alloc, verb, found) {
        Ok(task) => Ok(task),
        Err(fault) => Err(refused(alloc, fault)),
    }
}

/// What is said, never a task, if the word after the program's name is no command: help, the version, or what is wrong.
fn no_command<'a>(alloc: Global, words: &[&str]) -> Result<Task<'a>, NoTask>
    requires { IsSomeAnd (slice_get words.now 1) (λ word. (verb : Verb) → word.now ≢ word_of verb) }
    ensures { IsErrAnd result (IsToldByClap (IsSomeAnd (slice_get words.now 1) (λ word. AsksAlone word.now))) }
{
    match program_line(alloc)?.try_get_matches_from(words) {
        // Clap lets no such line through: proofs/Refused.antt.
        Ok(_) => unreachable!(),
        Err(error) => Err(ending_of(alloc, &error)),
    }
}

/// The task that the words ask for, of which the first is the program's name.
pub fn read_words<'a>(alloc: Global, words: &'a [&'a str]) -> Result<Task<'a>, NoTask>
    ensures default { length words.now < 2 → IsOkAnd result IsDefault }
    ensures command { 2 ≤ length words.now → IfOk result (λ task.
        IsSomeAnd (slice_get words.now 1) (λ word. word.now ≡ word_of (verb_of task))) }
    ensures tolerance { IfOk result HasTolerance }
    ensures keeps_input { IfOk result KeepsInput }
    ensures status { IfErr result (HasStatus (map (λ word. word.now) words.now)) }

    // Nothing is written exactly if the words ask for that.
    ensures trial { IfOk result (λ task. IsTrial task ↔ AsksDryRun (map (λ word. word.now) words.now)) }
{
    if words.len() < 2 {
        return Ok(default_task());
    }
    match Verb::named(words[1]) {
        Some(verb) => read_command(alloc, verb, &words[1..]),
        None => no_command(alloc, words),
    }
}
