//! The line of a command, which may be a dry run.
ghost use Rattle.std.specs.Prelude.{◌≡◌, ◌↔◌, IfErr, IfOk, codes, drop, map, true};
ghost use Rattle.clap.specs.Words.{found_of};
ghost use Rattle.msr_arguments.specs.Found.{AsksTask, IsBadLine, IsToldByClap, IsToldIf};
ghost use Rattle.msr_arguments.specs.Rules.{IsFoundBy, dry_run_rules};
ghost use Rattle.msr_options.specs.Asked.{ask_dry_run, ask_help};
ghost use Rattle.msr_options.specs.Tasks.{HasTolerance, IsTrial, KeepsInput, verb_of};

use crate::commands::dry_run_line;
use crate::words::{LineFault, below_in, days_in, ending_of, file_in, read_line, refused, task_of};
use clap::ArgMatches;
use msr_options::{NoTask, Task, Trying, Verb};
use std::alloc::Global;

/// Whether one of the words before any `--` asks for a dry run.
fn asks_dry_run(words: &[&str]) -> bool
    ensures { result ≡ ask_dry_run (map (λ word. word.now) words.now) }
{
    for word in words {
        if *word == "--" {
            return false;
        }
        if *word == "--dry-run" {
            return true;
        }
    }
    false
}

/// What clap finds in the words of a dry run, which begin with that of the command.
fn read_dry_run<'a>(alloc: Global, words: &'a [&'a str]) -> Result<ArgMatches<'a>, NoTask>
    ensures found { IfOk result (λ found. IsFoundBy dry_run_rules (found_of found)) }
    ensures told { IfErr result (IsToldByClap (ask_help (drop 1 (map (λ word. word.now) words.now)) ≡ true)) }
{
    match dry_run_line(alloc)?.try_get_matches_from(words) {
        Ok(found) => Ok(found),
        Err(error) => Err(ending_of(alloc, &error)),
    }
}

/// The archive that clap found, of whose days it is to be told what repacking them would give.
fn trying_in<'a>(alloc: Global, found: &ArgMatches<'a>) -> Result<Task<'a>, LineFault<'a>>
    requires { IsFoundBy dry_run_rules (found_of found.now) }
    ensures trial { IfOk result (λ task. (verb_of task ≡ Verb.Archive) × IsTrial task) }
    ensures asked { IfOk result (AsksTask (found_of found.now)) }
    ensures kept { IfOk result (λ task. HasTolerance task × KeepsInput task) }
{
    let days = days_in(found)?;
    let below = below_in(alloc, found)?;
    let root = file_in(found, "ROOT");
    Ok(Task::Trial(Trying { root, below, days }))
}

/// The task of a dry run, or what is said if its line has a fault that clap lets through.
fn trial_of<'a>(alloc: Global, found: &ArgMatches<'a>) -> Result<Task<'a>, NoTask>
    requires { IsFoundBy dry_run_rules (found_of found.now) }
    ensures trial { IfOk result (λ task. (verb_of task ≡ Verb.Archive) × IsTrial task) }
    ensures kept { IfOk result (λ task. HasTolerance task × KeepsInput task) }
    ensures status { IfErr result IsBadLine }
{
    match trying_in(alloc, found) {
        Ok(task) => Ok(task),
        Err(fault) => Err(refused(alloc, fault)),
    }
}

/// The task of a command, whose word comes first.
pub(crate) fn read_command<'a>(
    alloc: Global,
    verb: Verb,
    words: &'a [&'a str],
) -> Result<Task<'a>, NoTask>
    ensures command { IfOk result (λ task. verb_of task ≡ verb) }
    ensures trial { IfOk result (λ task. IsTrial task
        ↔ ((verb ≡ Verb.Archive) × (ask_dry_run (map (λ word. word.now) words.now) ≡ true))) }
    ensures kept { IfOk result (λ task. HasTolerance task × KeepsInput task) }
    ensures status { IfErr result (IsToldIf (ask_help (drop 1 (map (λ word. word.now) words.now)) ≡ true)) }
{
    if verb == Verb::Archive && asks_dry_run(words) {
        return trial_of(alloc, &read_dry_run(alloc, words)?);
    }
    task_of(alloc, verb, &read_line(alloc, verb, words)?)
}
