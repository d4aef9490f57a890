//! What repacking a day would give.
ghost use Rattle.std.specs.Prelude.{IfOk};
ghost use Rattle.msr_devices.specs.Device.{CanCountCall};
ghost use Rattle.msr_tree.specs.Calls.{Goes};
ghost use Rattle.msr_trial.specs.Days.{OpensTriedDay, PacksFrom, TriesDay, TriesFile, WasTried, WasTriedFor};

use msr_devices::{FromWrite, Source};
use msr_making::{DayFault, day_length, is_young, repack_day_of};
use msr_options::{DayOptions, Options, Side, Unopened};
use msr_outcomes::Outcome;
use msr_tree::{Time, Tree, TreeFault};
use std::alloc::{AllocError, Global};
use std::io;

/// A day's file, and how many bytes it has.
#[derive(Drop)]
pub(crate) struct OpenDay<R: Source> {
    source: R,
    bytes: u64,
}

/// Opens a day's file, and looks how long it is.
fn open_day<T: Tree>(tree: &mut T, input: &str) -> Result<OpenDay<T::Reader>, TreeFault>
    ensures count { IfOk result (λ day. CanCountCall (T.Reader.device day.source)) }
    ensures goes { Goes (T.went tree.old) (T.went tree.new)
        (OpensTriedDay input.now (λ reader. T.Reader.device reader) result) }
{
    let source = tree.follow(input)?;
    match tree.look_through(input)? {
        Some(facts) => Ok(OpenDay {
            source,
            bytes: facts.bytes,
        }),
        None => Err(TreeFault::Failed),
    }
}

/// What repacking a source of so many bytes gives, of which nothing is kept.
fn packed<S: Source>(alloc: Global, source: &mut S, bytes: u64, options: Options) -> Outcome
    requires { CanCountCall (S.device source.old) }
    ensures { PacksFrom options (S.device source.old) bytes result }
{
    let mut records = FromWrite::new(io::sink());
    let mut report = FromWrite::new(io::sink());
    match repack_day_of(alloc, source, bytes, &mut records, &mut report, options) {
        Ok(repacked) => Outcome::Done(repacked),
        Err(fault) => Outcome::Refused(DayFault::Tool(fault)),
    }
}

/// What repacking the file to which a name leads would give.
fn try_file<T: Tree>(
    tree: &mut T,
    alloc: Global,
    input: &str,
    options: Options,
) -> Result<Outcome, AllocError>
    ensures told { IfOk result (WasTried options) }
    ensures goes { Goes (T.went tree.old) (T.went tree.new) (TriesFile options input.now result) }
{
    match open_day(tree, input) {
        Ok(mut day) => Ok(packed(alloc, &mut day.source, day.bytes, options)),
        Err(TreeFault::Failed) => {
            let unopened = Unopened {
                side: Side::File,
                why: tree.reason(),
            };
            Ok(Outcome::Refused(DayFault::CannotOpen(unopened)))
        }
        Err(TreeFault::Memory) => Err(AllocError),
    }
}

/// What repacking a day's file would give. By the time of now it is told how old it is.
pub(crate) fn try_day<T: Tree>(
    tree: &mut T,
    alloc: Global,
    input: &str,
    days: &DayOptions,
    now: Time,
) -> Result<Outcome, AllocError>
    ensures told { IfOk result (WasTriedFor days.now) }
    ensures goes { Goes (T.went tree.old) (T.went tree.new) (TriesDay days.now input.now result) }
{
    if is_young(tree, input, days.older_than, now)? {
        return Ok(Outcome::Young);
    }
    let length = day_length(tree, alloc, input, days)?;
    try_file(tree, alloc, input, days.in_length(length).options)
}
