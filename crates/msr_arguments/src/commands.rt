//! The commands and options that the program knows.
//!
//! Each step at a `Command` that may fail costs the check of its function seconds, so there are few.
ghost use Rattle.std.specs.Prelude.{◌≡◌, [], IfOk, Some, codes, false, map};
ghost use Rattle.clap.specs.Words.{app_of, new_rule, rule_of};
ghost use Rattle.msr_arguments.specs.Rules.{app_with, dry_run_rules, flag_rule, option_rule, program_alone, program_app, rule_for, rules_of, with_verb};
ghost use Rattle.msr_options.specs.Tasks.{word_of};

use crate::texts;
use clap::builder::ValueParser;
use clap::{Arg, ArgAction, Command, value_parser};
use msr_options::Verb;
use std::alloc::{AllocError, Global};

/// What a command takes.
#[derive(Clone, Copy)]
pub(crate) enum Argument<'a> {
    /// A file or folder that has to be given, by its name and its help.
    File(&'a str, &'a str),
    /// One that need not be given.
    FileIfAny(&'a str, &'a str),
    /// An option without a value, by its name, its help and its long help.
    Flag(&'a str, &'a str, &'a str),
    Below(&'a str, &'a str),
    /// The file with lines of earlier runs, by its help and its long help.
    Known(&'a str, &'a str),
    Tolerance(&'a str, &'a str),
    Length(&'a str),
    /// A number of days, by what it is without a value, its help and its long help.
    Days(&'a str, &'a str, &'a str),
    /// The length of a day's records. Each may have a length of its own, so that it may be no number.
    DayLength(&'a str, &'a str),
}

/// What the help of a command says, a line, what it does, and at its end examples; and what the command takes: options,
/// then files, each in the order of its help.
#[derive(Clone, Copy)]
pub(crate) struct About<'a> {
    pub about: &'a str,
    pub long_about: &'a str,
    pub after: &'a str,
    pub arguments: &'a [Argument<'a>],
}

fn about_of<'a>(verb: Verb) -> About<'a>
    ensures { map rule_for result.arguments.now ≡ rules_of verb }
{
    match verb {
        Verb::Repack => texts::REPACK,
        Verb::List => texts::LIST,
        Verb::Check => texts::CHECK,
        Verb::Compare => texts::COMPARE,
        Verb::Archive => texts::ARCHIVE,
        Verb::Verify => texts::VERIFY,
        Verb::Replace => texts::REPLACE,
        Verb::Feed => texts::FEED,
    }
}

fn option<'a>(alloc: Global, name: &'a str, help: &'a str, long_help: &'a str) -> Arg<'a>
    ensures rule { rule_of result ≡ record (new_rule name.entry.now) { long = Some name.entry.now } }
    ensures local { result.global ≡ false }
{
    Arg::new(alloc, name)
        .long(name)
        .help(help)
        .long_help(long_help)
}

/// An option with a value, which this parser reads, and its help in a line.
fn valued<'a>(
    alloc: Global,
    name: &'a str,
    value_name: &'a str,
    parser: ValueParser<'a>,
    default: &'a str,
    help: &'a str,
) -> Arg<'a>
    ensures rule { rule_of result ≡ option_rule name.entry.now default.entry.now parser.entry }
    ensures local { result.global ≡ false }
{
    Arg::new(alloc, name)
        .long(name)
        .action(ArgAction::Set)
        .value_name(value_name)
        .value_parser(parser)
        .default_value(default)
        .help(help)
}

/// Clap's form of an argument. Its action would be `Set` anyway; clap's lemma on what has to be given wants it said.
fn arg_of<'a>(alloc: Global, argument: Argument<'a>) -> Arg<'a>
    ensures rule { rule_of result ≡ rule_for argument.entry }
    ensures local { result.global ≡ false }
{
    match argument {
        Argument::File(name, help) => {
            Arg::new(alloc, name)
                .required(true)
                .action(ArgAction::Set)
                .help(help)
        }
        Argument::FileIfAny(name, help) => Arg::new(alloc, name).help(help),
        Argument::Flag(name, help, long_help) => {
            option(alloc, name, help, long_help).action(ArgAction::SetTrue)
        }
        Argument::Below(help, long_help) => option(alloc, "below", help, long_help)
            .value_name("FOLDER")
            .action(ArgAction::Append),
        Argument::Known(help, long_help) => option(alloc, "known", help, long_help)
            .value_name("FILE")
            .action(ArgAction::Set),
        Argument::Tolerance(help, long_help) => {
            let parser = value_parser!(u32).range(1..=1_000_000);
            valued(alloc, "tolerance", "T", parser, "1000", help).long_help(long_help)
        }
        Argument::Days(default, help, long_help) => {
            valued(
                alloc,
                "older-than",
                "DAYS",
                value_parser!(u32),
                default,
                help,
            )
            .long_help(long_help)
        }
        Argument::Length(help) => { valued(alloc, "length", "L", value_parser!(u32), "512", help) }
        Argument::DayLength(help, long_help) => {
            valued(alloc, "length", "L", value_parser!(String), "512", help).long_help(long_help)
        }
    }
}

/// A command line that has a length alone, which may begin with a hyphen.
pub(crate) fn length_alone<'a>(alloc: Global) -> Result<Command<'a>, AllocError> {
    let length = arg_of(alloc, texts::LENGTH).allow_hyphen_values(true);
    Command::new(alloc, "msrepack").arg(length)
}

/// A command with its help, which takes nothing.
fn titled<'a>(alloc: Global, name: &'a str, about: About<'a>) -> Command<'a>
    ensures { app_of result ≡ app_with name.entry.now [] }
{
    Command::new(alloc, name)
        .about(about.about)
        .long_about(about.long_about)
        .after_long_help(about.after)
}

/// A command with its help and its arguments.
fn described<'a>(alloc: Global, name: &'a str, about: About<'a>) -> Result<Command<'a>, AllocError>
    ensures { IfOk result (λ command. app_of command
        ≡ app_with name.entry.now (map rule_for about.entry.arguments.now)) }
{
    let mut command = titled(alloc, name, about);
    for argument in about.arguments {
        command = command.arg(arg_of(alloc, *argument))?;
    }
    Ok(command)
}

/// A line of the command of that name, which help and faults call by the other one.
fn line_of<'a>(
    alloc: Global,
    name: &'a str,
    bin_name: &str,
    about: About<'a>,
) -> Result<Command<'a>, AllocError>
    ensures { IfOk result (λ command. app_of command
        ≡ app_with name.entry.now (map rule_for about.entry.arguments.now)) }
{
    described(alloc, name, about)?.bin_name(bin_name)
}

/// The line of one command, whose own word comes first. Help and faults call it `msrepack` and that word.
pub(crate) fn command_line<'a>(alloc: Global, verb: Verb) -> Result<Command<'a>, AllocError>
    ensures { IfOk result (λ command. app_of command ≡ app_with (word_of verb) (rules_of verb)) }
{
    let bin_name = format!(in alloc; "msrepack {}", verb.word())?;
    line_of(alloc, verb.word(), bin_name.as_str(), about_of(verb))
}

/// The line of `archive` as a dry run, with the command's own word first.
pub(crate) fn dry_run_line<'a>(alloc: Global) -> Result<Command<'a>, AllocError>
    ensures { IfOk result (λ command. app_of command ≡ app_with (codes "archive") dry_run_rules) }
{
    line_of(alloc, "archive", "msrepack archive", dry_run())
}

/// What the help of a dry run says, and what it takes.
fn dry_run<'a>() -> About<'a>
    ensures { map rule_for result.arguments.now ≡ dry_run_rules }
{
    texts::DRY_RUN
}

/// The line of the program, without its commands and its name in help.
fn program_alone<'a>(alloc: Global) -> Command<'a>
    ensures { app_of result ≡ program_alone }
{
    titled(alloc, "msrepack", texts::PROGRAM)
        .version("1.1.0")
        .subcommand_required(true)
}

/// A command by its own word, with its help and its arguments.
fn command_of<'a>(alloc: Global, verb: Verb) -> Result<Command<'a>, AllocError>
    ensures { IfOk result (λ command. app_of command ≡ app_with (word_of verb) (rules_of verb)) }
{
    described(alloc, verb.word(), about_of(verb))
}

/// The line of the program with one command more.
fn with_verb<'a>(alloc: Global, program: Command<'a>, verb: Verb) -> Result<Command<'a>, AllocError>
    ensures { IfOk result (λ more. app_of more ≡ with_verb (app_of program.entry) verb) }
{
    let command = command_of(alloc, verb)?;
    program.subcommand(command)
}

/// The line of the program, with all its commands.
pub(crate) fn program_line<'a>(alloc: Global) -> Result<Command<'a>, AllocError>
    ensures { IfOk result (λ command. app_of command ≡ program_app) }
{
    let mut command = program_alone(alloc);
    for verb in [
        Verb::Repack,
        Verb::List,
        Verb::Check,
        Verb::Compare,
        Verb::Archive,
        Verb::Verify,
        Verb::Replace,
        Verb::Feed,
    ] {
        command = with_verb(alloc, command, verb)?;
    }
    command.bin_name("msrepack")
}
