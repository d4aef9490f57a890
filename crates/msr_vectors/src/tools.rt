//! The calls of msr_tool, over devices that move few bytes at a time, are interrupted, or fail at a call.

ghost use Rattle.std.specs.Prelude.{◌≡◌, [], Some};
ghost use Rattle.msr_devices.specs.Device.{unused, CanCountCall};

use crate::inputs::{TOLERANCE, behaviors, bytes_of};
use crate::line::Line;
use msr_devices::{Behavior, DeviceFault, Sink, Source, TestSink, TestSource};
use msr_header::HeaderFault;
use msr_input::{Fault, ReadFault};
use msr_options::{ListForm, Options};
use msr_plain::PlainFault;
use msr_report_reader::ReportFault;
use msr_rows::FaultKind;
use msr_steim::SteimFault;
use msr_tool::{
    ToolFault, check_and_tell, check_packed, feed, feed_and_report, list_segments, repack,
    repack_and_report,
};
use std::alloc::Global;
use std::fmt;

/// How the devices behave, and whether those that are written accept nothing where they fail.
#[derive(Clone, Copy)]
struct Devices {
    records: Behavior,
    report: Behavior,
    written: Behavior,
    told: Behavior,
    accepts_nothing: bool,
}

impl Devices {
    /// Of these only that one is odd, or none.
    fn with_odd(mut self, place: Place, odd: Behavior) -> Devices {
        match place {
            Place::Records => self.records = odd,
            Place::Report => self.report = odd,
            Place::Written => self.written = odd,
            Place::Told => self.told = odd,
            Place::None => {}
        }
        self
    }

    fn sink(self, alloc: Global, behavior: Behavior) -> TestSink
        ensures { ⟦<TestSink as Sink>⟧.device result ≡ unused (Some []) }
    {
        if self.accepts_nothing {
            TestSink::accepting_nothing(Vec::new(alloc), behavior)
        } else {
            TestSink::new(Vec::new(alloc), behavior)
        }
    }
}

/// `DEVICE`: `records` or `report`, which are read, `written` or `told`, which are written, or `-`. It fails by an error,
/// and once more by accepting nothing. The others move at most OTHERS bytes in a call.
#[derive(Clone, Copy)]
enum Place {
    Records,
    Report,
    Written,
    Told,
    None,
}

const PLACES: &[(&str, Place)] = &[
    ("records", Place::Records),
    ("report", Place::Report),
    ("written", Place::Written),
    ("told", Place::Told),
    ("-", Place::None),
];

/// A call of the library.
#[derive(Clone, Copy)]
enum Call {
    Repack,
    Feed,
    RepackAndReport,
    FeedAndReport,
    List,
    Check,
    CheckAndTell,
}

const CALLS: &[(&str, Call)] = &[
    ("repack", Call::Repack),
    ("feed", Call::Feed),
    ("repack_and_report", Call::RepackAndReport),
    ("feed_and_report", Call::FeedAndReport),
    ("list", Call::List),
    ("check", Call::Check),
    ("check_and_tell", Call::CheckAndTell),
];

/// A call, what it reads, and what it is to write.
#[derive(Clone, Copy)]
struct Asked<'a> {
    call: Call,
    options: Options,
    records: &'a [u8],
    report: &'a [u8],
    written: &'a [u8],
    told: &'a [u8],
}

/// Why a call that writes records stops, if it does.
fn fault_of_writing<R: Source, W: Sink, T: Sink>(
    alloc: Global,
    asked: &Asked<'_>,
    records: &mut R,
    written: &mut W,
    told: &mut T,
) -> Option<ToolFault>
    requires records { CanCountCall (R.device records.old) }
    requires written { CanCountCall (W.device written.old) }
    requires told { CanCountCall (T.device told.old) }
{
    let options = asked.options;
    let done = match asked.call {
        Call::Repack => repack(alloc, records, written, options),
        Call::Feed => feed(alloc, records, written, options),
        Call::RepackAndReport => repack_and_report(alloc, records, written, told, options),
        _ => feed_and_report(alloc, records, written, told, options),
    };
    done.err()
}

/// Why a call that writes no records stops, if it does.
fn fault_of_reading<R: Source, Q: Source, T: Sink>(
    alloc: Global,
    asked: &Asked<'_>,
    records: &mut R,
    report: &mut Q,
    told: &mut T,
) -> Option<ToolFault>
    requires records { CanCountCall (R.device records.old) }
    requires report { CanCountCall (Q.device report.old) }
    requires told { CanCountCall (T.device told.old) }
{
    match asked.call {
        Call::List => list_segments(alloc, records, told, asked.options, ListForm::Words).err(),
        Call::Check => check_packed(alloc, records, report).err(),
        _ => check_and_tell(alloc, records, report, told).err(),
    }
}

/// Why a call stops, if it does, and how many bytes of records and of text it wrote.
type Ended = (Option<ToolFault>, usize, usize);

/// What comes of the call. What it wrote has to be first parts of what it is to write.
fn ended(line: &mut Line<'_>, asked: &Asked<'_>, devices: Devices) -> Ended {
    let alloc = line.alloc;
    let mut records = TestSource::new(asked.records, devices.records);
    let mut report = TestSource::new(asked.report, devices.report);
    let mut written = devices.sink(alloc, devices.written);
    let mut told = devices.sink(alloc, devices.told);
    let fault = match asked.call {
        Call::List | Call::Check | Call::CheckAndTell => {
            fault_of_reading(alloc, asked, &mut records, &mut report, &mut told)
        }
        _ => fault_of_writing(alloc, asked, &mut records, &mut written, &mut told),
    };
    let is_told = asked.told.starts_with(told.bytes());
    line.agree(asked.written.starts_with(written.bytes()) & is_told);
    (fault, written.bytes().len(), told.bytes().len())
}

/// What comes of the call with these devices, and the same where one that fails accepts nothing there.
fn put_ended(line: &mut Line<'_>, asked: &Asked<'_>, mut devices: Devices) {
    let (fault, written, told) = ended(line, asked, devices);
    devices.accepts_nothing = true;
    let again = ended(line, asked, devices);
    line.agree(again == (fault, written, told));
    line.put(' ');
    match fault {
        Some(fault) => line.put(fault),
        None => line.put_text("done"),
    }
    line.put(' ');
    line.put_before(written, ' ');
    line.put_before(told, ',');
}

/// What comes of the call if a device is odd, `DEVICE MOST INTERRUPTIONS FAILS`.
fn put_odd(line: &mut Line<'_>, asked: &Asked<'_>, others: Devices) {
    line.put_before(line.rest, ':');
    let place = line.named(PLACES, Place::None);
    for odd in &behaviors(line) {
        put_ended(line, asked, others.with_odd(place, *odd));
    }
}

/// What comes of the call for each odd device.
fn put_all<'a>(line: &mut Line<'a>, asked: &Asked<'_>, others: Behavior, odds: &'a str) {
    let others = Devices {
        records: others,
        report: others,
        written: others,
        told: others,
        accepts_nothing: false,
    };
    for odd in odds.split(" + ") {
        if !line.answer.is_empty() {
            line.put('\n');
        }
        line.rest = odd;
        put_odd(line, asked, others);
    }
}

/// `tool CALL LENGTH OTHERS DEVICE MOST INTERRUPTIONS FAILS + .. & RECORDS & REPORT & WRITTEN & TOLD`: for each odd device why
/// the call stops or that it is done, and how many bytes of the records and of the text are written then.
pub fn called(line: &mut Line<'_>) {
    let call = line.named(CALLS, Call::Repack);
    let Some(options) = Options::new(line.length(), TOLERANCE) else {
        return line.bad(());
    };
    let others = Behavior {
        most: line.number(),
        interruptions: 0,
        fails_at: None,
    };
    let odds = line.until(" & ");
    let records = bytes_of(line);
    let report = line.text();
    let written = bytes_of(line);
    let told = line.text();
    let asked = Asked {
        call,
        options,
        records: &records,
        report: &report,
        written: &written,
        told: &told,
    };
    put_all(line, &asked, others, odds);
}

/// `options LENGTH TOLERANCE`: the length and the tolerance of the options, and whether they are strict at first and once
/// they are to be; or none.
pub fn options(line: &mut Line<'_>) {
    let Some(options) = Options::new(line.length(), line.number()) else {
        return line.put_text("None");
    };
    let strict = options.strict(true);
    let is_same = strict.strict(false) == options;
    let is_length = strict.length() == options.length();
    line.agree(is_same & is_length & (strict.tolerance() == options.tolerance()));
    line.put_before(options.length().bytes(), ' ');
    line.put_before(options.tolerance(), ' ');
    line.put_before(options.is_strict(), ' ');
    line.put(strict.is_strict());
}

/// The fault of an input at the place that is the next word, which is told alike wherever it stands.
fn of_input(line: &mut Line<'_>, kind: FaultKind) -> ToolFault {
    let offset = line.number();
    let fault = Fault { offset, kind };
    line.put(fault);
    line.agree_with(ReadFault::Input(fault));
    line.answer.clear();
    ToolFault::Input(fault)
}

/// `fault blockette|code|line NUMBER`, `fault read|write`: the text of a fault, and the status with which a program ends.
pub fn fault(line: &mut Line<'_>) {
    let name = line.named(FAULTS, Named::Read);
    let fault = match name {
        Named::Input(kind) => of_input(line, kind),
        Named::Line => ToolFault::Report(line.number()),
        Named::Read => ToolFault::Read,
        Named::Write => ToolFault::Write,
    };
    line.put(fault);
    put_status(line, fault);
}

/// The faults that have rows.
#[derive(Clone, Copy)]
enum Named {
    Input(FaultKind),
    Line,
    Read,
    Write,
}

const FAULTS: &[(&str, Named)] = &[
    (
        "blockette",
        Named::Input(FaultKind::Header(HeaderFault::OtherBlockette(500))),
    ),
    ("code", Named::Input(FaultKind::BadCode(3))),
    ("line", Named::Line),
    ("read", Named::Read),
    ("write", Named::Write),
];

/// Adds the status with which a program ends.
fn put_status(line: &mut Line<'_>, fault: ToolFault) {
    line.put_text(", status ");
    line.put(fault.status());
}

fn put_fault<D: fmt::Display + Drop>(line: &mut Line<'_>, fault: D) {
    line.put(fault);
    line.put_text(", ");
}

/// `memory`: what the libraries tell if memory is refused.
pub fn memory(line: &mut Line<'_>) {
    put_fault(line, PlainFault::Memory);
    put_fault(line, SteimFault::Memory);
    put_fault(line, FaultKind::Memory);
    put_fault(line, ReadFault::from(DeviceFault::Memory));
    put_fault(line, ReportFault::Memory);
    line.put(ToolFault::Memory);
    put_status(line, ToolFault::Memory);
}
