//! The texts of help, by command.
use crate::commands::{About, Argument};

pub(crate) const PROGRAM: About = About {
    about: "Repacks miniSEED into the fewest records of one length",
    long_about: "Repacks miniSEED into the fewest records of one length.

msrepack joins the neighbouring records of a file into segments and writes each
segment again in records of one length, as few as can hold it. Samples stay as they
are. The report names samples of each segment, as many as its records, no two of
which fit one record: so fewer records cannot hold it. Whoever has the records and the
report can check that again. Fewest is over records as msrepack writes them: 64 bytes
before the data, the first difference taken from the sample before, none wrapped.

It reads records with blockette 1000, with or without blockette 1001, in either byte
order: 16-bit, 24-bit and 32-bit integers, Steim-1 and Steim-2. A file with anything
else is refused with the place and the reason. No record that has samples is skipped.",
    after: "With no words msrepack does what `msrepack repack -` does.

Statuses:
  0  done
  1  refused: an input has a fault, or a file cannot be opened, read or written;
     for an archive, at least one of its files or folders
  2  the command line is wrong
  3  the report does not show that the records are the fewest, or two files have not
     the same data

Examples:
  msrepack repack --length 4096 day.mseed packed.mseed > packed.txt
  msrepack check packed.mseed packed.txt
  msrepack compare day.mseed packed.mseed
  msrepack archive sds packed reports
  msrepack verify sds packed reports",
    arguments: &[],
};

pub(crate) const REPACK: About = About {
    about: "Writes the segments of a file in the fewest records, and a report",
    long_about: "Writes the segments of a file in the fewest records, and a report.

The records go to OUT, the report to standard output. The records are big-endian,
have blockettes 1000 and 1001 and 64 bytes before the data, and hold their samples as
Steim-2, or else as Steim-1, 16-bit, 24-bit or 32-bit integers, whichever first fits.
The time of each record is that of its first sample, counted from the start of its
segment and rounded to the microsecond.

The report has the length and the tolerance, with --no-int24 the kinds of the records,
how many records were read, how many of them had no samples, and in how many the last
sample was not the reverse constant; then, for each segment, a line with its name, rate,
start, samples and records, and a line of separators: samples, numbered from 0, no two
of which fit one record.

If IN is refused, one line on standard error says at which byte and why, and OUT
has only a prefix of the records: do not keep it.

Status 0 if all was written, 1 after a fault, 2 if the command line is wrong.",
    after: "Examples:
  msrepack repack day.mseed                     how few records of 512 bytes would do
  msrepack repack --length 4096 day.mseed packed.mseed > packed.txt
  cat day.mseed | msrepack repack - packed.mseed",
    arguments: &[
        LENGTH,
        NO_INT24,
        TOLERANCE,
        STRICT,
        INPUT,
        Argument::FileIfAny(
            "OUT",
            "The file to write the records to. Without it they are not kept",
        ),
    ],
};

pub(crate) const LIST: About = About {
    about: "Lists the segments of a file",
    long_about: "Lists the segments of a file.

Prints a line for each segment, with its name, quality, rate, flags, start and number
of samples, and a last line that counts the records: all of them, those without
samples, and those whose last sample is not the reverse constant.

With --json each line is an object, which also has the time of the last sample and
says why the segment began: it is the first, or has another channel or other settings
than the one before it in the file, or begins later (gap) or earlier (overlap) than
that one's next sample.

Status 0 if the list is whole, 1 after a fault, 2 if the command line is wrong.",
    after: "Examples:
  msrepack list --tolerance 5000 day.mseed
  msrepack list --json day.mseed | jq 'select(.began == \"gap\")'",
    arguments: &[TOLERANCE, STRICT, JSON, INPUT],
};

pub(crate) const CHECK: About = About {
    about: "Says whether a report shows that packed records are the fewest",
    long_about: "Says whether a report shows that packed records are the fewest.

Reads the report and then the records, and prints one of two verdicts:

least      Every segment of PACKED, as the report's tolerance joins them, stands in
           the fewest records of the report's length and kinds that can hold its
           samples, of those that msrepack could write, whoever made the records and
           the report. Nothing has to be believed of the program that wrote them.
           Status 0.
not shown  The report does not show that: a record has another length or kind, or no
           samples, or more samples than msrepack could write in it, or a segment, its
           number of samples or records, or its separators do not agree. It does not
           say that fewer records are possible. Status 3.

Nothing is said of the file that PACKED was made from: `msrepack compare` says whether
it has the same segments.

The report is read with the form that `msrepack repack` writes. If it has another, one
line on standard error names its first wrong line, counted from 1; if PACKED has a
fault, one line says at which byte and why. Both have status 1, and no verdict; it is 2
if the command line is wrong.",
    after: "Example:
  msrepack repack --length 4096 day.mseed packed.mseed > packed.txt
  msrepack check packed.mseed packed.txt",
    arguments: &[
        Argument::File("PACKED", "The file with the packed records"),
        Argument::File("REPORT", "The file with their report"),
    ],
};

pub(crate) const COMPARE: About = About {
    about: "Says whether two files have the same segments",
    long_about: "Says whether two files have the same segments.

Reads both files, joins their records into segments as `repack` does, and compares
these one after another: name, quality, rate and flags, start, and every sample. How the
samples are divided into records, and how these are encoded, does not matter. It
prints, if all are the same,

same segments N samples N
moved N N                             by how many microseconds a record's time is at
                                      most off the time of its first sample, counted
                                      from the start of its segment: in ONE, in OTHER

or else one line with the first difference, segments counted from 1, samples from 0:

differ segment K key                  name, quality, rate, flags, correction or timing
differ segment K start
differ segment K sample N values V V  its value in ONE, and in OTHER
differ segment K sample N only in ONE
differ segment K only in ONE          or, in both of these, OTHER

Neither file is trusted, and it does not matter what wrote them. If one has a fault, one
line on standard error names the file, at which byte and why, and there is no answer.

Status 0 if they are the same, 3 if they differ, 1 after a fault, 2 if the command line
is wrong.",
    after: "Example:
  msrepack repack --length 4096 day.mseed packed.mseed > packed.txt
  msrepack compare day.mseed packed.mseed",
    arguments: &[
        TOLERANCE,
        Argument::File("ONE", "The file to compare, or - for standard input"),
        Argument::File(
            "OTHER",
            "The file to compare it with, or - for standard input",
        ),
    ],
};

pub(crate) const ARCHIVE: About = About {
    about: "Repacks every day file of an SDS archive",
    long_about: "Repacks every day file of an archive that is kept as a SeisComP Data Structure.

Walks the folders below ROOT, names in the order of their bytes, and repacks each file
of waveform data, YEAR/NET/STA/CHAN.D/NET.STA.LOC.CHAN.D.YEAR.DAY, as `repack` does: its
records go to the same path below OUT, its report to that path with .txt added, below
REPORTS. Folders are made when a file needs them. Prints one line for each entry, as
soon as it is done:

done PATH read N written M            repacked, from N records to M
same PATH read N written M            done by an earlier walk, with --resume
skipped PATH: not an SDS path         left alone, as also if it says
                                      `not waveform data` or `bad day`
refused PATH: TEXT                    a fault, as repack tells it, or `cannot open`, or
                                      `another walk is at work`: then it is left alone
refused PATH: listing                 a folder that cannot be listed, or has a name that
                                      is not UTF-8: nothing in it is handled
known PATH: TEXT                      the same as refused, by a line of FILE, with --known
notshown PATH                         its report did not show it, with --check: not kept
differs PATH                          not the data of the file, with --check: not kept
changed PATH                          the same, and the file was changed meanwhile
larger PATH read N written M          it did not get smaller, with --only-smaller: not kept
shrunk PATH samples N M               it has M samples, and N by the report of an earlier
                                      walk, with --keep-old: what that left stays
misplaced PATH NET.STA.LOC.CHAN YEAR,DAY
                                      a segment is of this channel and begins on this day,
                                      and does not belong here, with --names: not kept
young PATH                            the file was changed in the last DAYS days, or in
                                      the future, with --older-than: left alone

and at the end, of the files that are done, one line for each channel, and the counts:

channel NET.STA.LOC.CHAN files N read N written N
files N skipped N refused N [known N] [larger N] [young N]

Records and report appear under their names whole or not at all: they are written beside
them, as PATH.N.part, and then renamed, the report first. Those of a refused file are
removed, without --keep-old also if they were there before. While a walk does a file,
PATH.claim stands beside its records, locked, and other walks leave the file alone.
Nothing in ROOT is changed, also if links lead there. The walk goes on after a refused
file.

Status 0 if all was walked and nothing refused, else 1; 2 if the command line is wrong.",
    after: "Examples:
  msrepack archive --resume --no-int24 --length 4096 --check sds packed reports > log.txt
  msrepack archive --resume --no-int24 --length 4096 --check --below 2020/XX \\
    sds packed reports > log.txt",
    arguments: &[
        DAY_LENGTH,
        NO_INT24,
        TOLERANCE,
        STRICT,
        BELOW,
        RESUME,
        CHECKED,
        ONLY_SMALLER,
        KEEP_OLD,
        DAYS_OLDER_THAN,
        DAYS_KNOWN,
        DAY_NAMES,
        BYTES,
        DAYS_QUIET,
        DAYS_JSON,
        DRY_RUN_ASKED,
        ROOT,
        Argument::File(
            "OUT",
            "The folder of the records. It is made if it is missing",
        ),
        Argument::File(
            "REPORTS",
            "The folder of the reports. It is made if it is missing",
        ),
    ],
};

pub(crate) const DRY_RUN: About = About {
    about: "Tells what repacking every day file of an SDS archive would give",
    long_about: "Tells what repacking every day file of an archive would give. Nothing is opened for writing,
made, changed or locked.

Walks the folders below ROOT, packs each day as `msrepack archive` does with these options,
and counts what that gives. Prints one line for each entry:

would PATH read N written M           N records would become M

and of what is skipped, refused or young the lines that `msrepack archive` prints; at the
end the sums over what would be repacked, as there:

channel NET.STA.LOC.CHAN files N read N written N
files N skipped N refused N [young N]

Status 0 if all was walked and nothing refused, else 1; 2 if the command line is wrong.",
    after: "Example:
  msrepack archive --dry-run --bytes --quiet --length 4096 sds",
    arguments: &[
        DAY_LENGTH,
        NO_INT24,
        TOLERANCE,
        STRICT,
        BELOW,
        DAYS_OLDER_THAN,
        BYTES,
        DAYS_QUIET,
        DAYS_JSON,
        DRY_RUN_ASKED,
        ROOT,
    ],
};

pub(crate) const VERIFY: About = About {
    about: "Says of every day file of an SDS archive whether its repack holds",
    long_about: "Says of every day file of an archive whether its records, as `archive` made them, have
the same data and are the fewest. No file is made, changed or locked.

Walks the folders below ROOT as `archive` does, and prints one line for each entry:

verified PATH                         its report shows that the records are the fewest,
                                      as `check` says, and file and records have the same
                                      segments, as `compare` says, read with the tolerance
                                      that the report tells
inplace PATH                          no records are there, and the report shows that the
                                      file is records, and the fewest, as after `replace`
missing PATH                          no report is there, or no records, and that is not
                                      shown
notshown PATH                         the report does not show that
differs PATH                          file and records have not the same segments
misplaced PATH NET.STA.LOC.CHAN YEAR,DAY
                                      it would be verified or inplace, but a segment is of
                                      this channel and begins on this day, and does not
                                      belong here, with --names
refused PATH: file: TEXT              a fault of the file, as `offset 512: 1 Truncated`,
                                      or `read fault`, `out of memory` or `cannot open`
refused PATH: records: TEXT           one of the records, also `the file itself`, if they
                                      are or may be the file of ROOT
refused PATH: report: TEXT            one of the report, as `line 7`
refused PATH: listing                 a folder that cannot be listed; of OUT `records:
                                      listing`
known PATH: TEXT                      the same as refused, or missing and refused before, by
                                      a line of FILE, with --known
skipped PATH: TEXT                    no day of waveform data, as `archive` tells it
orphan PATH                           after all others: a day of OUT, where ROOT has
                                      nothing

and last the counts, of days that are verified or in place first:

files N skipped N refused N [known N] missing N notshown N differs N orphan N

Status 0 if all is verified, in place, skipped or known, else 1, also if all of ROOT is walked
and has no day of waveform data; 2 if the command line is wrong.",
    after: "Examples:
  msrepack verify sds packed reports > log.txt
  msrepack verify --quiet --below 2020/XX sds packed reports",
    arguments: &[
        KNOWN,
        NAMES,
        QUIET,
        LINES_JSON,
        BELOW,
        ROOT,
        Argument::File("OUT", "The folder of the records"),
        Argument::File("REPORTS", "The folder of the reports"),
    ],
};

pub(crate) const REPLACE: About = About {
    about: "Puts the records of an SDS archive in the place of its files, or undoes that",
    long_about: "Puts the records of an archive, as `archive` made them, in the place of its files, or
with --undo the files back.

Walks the folders below ROOT as `archive` does, and verifies each day anew, as `verify`
does. The file of a verified day goes from ROOT to the same path below ASIDE, and its
records from OUT to its place in ROOT, with its owner, group, mode and time of last
change. At each moment, whatever is killed, one whole file has the day's name, the
original or its records: run it again, and it goes on. Prints one line for each entry:

replaced PATH bytes N M               done: N bytes became M
same PATH                             ROOT has the records already
young PATH                            the file was changed in the last DAYS days, or in
                                      the future: left alone
larger PATH bytes N M                 the records are not fewer bytes, with
                                      --only-smaller: left alone
changed PATH                          file or records were changed since they were
                                      verified: the file has its place
refused PATH: TEXT                    as `verify` tells it; or a link is in the way, ASIDE
                                      has another file of this name, owner, mode or time
                                      cannot be kept, or the records have 24-bit integers
missing PATH, notshown PATH, differs PATH, skipped PATH: TEXT, orphan PATH
                                      as `verify` tells it
unfinished FOLDER                     the system failed there, as standard error tells

and last the counts:

total replaced N same N young N larger N changed N skipped N refused N missing N
notshown N differs N orphan N unfinished N bytes N M

With --undo it walks the folders below ASIDE, and puts each original back into ROOT and
its records back into OUT. Nothing is verified. The lines are

restored PATH                         done
changed PATH                          somebody has written to the records in ROOT: the
                                      original stays in ASIDE
refused PATH: TEXT                    a link is in the way, other records are in OUT, or
                                      owner, mode or time cannot be kept
total restored N changed N refused N unfinished N

Status 0 if each day is replaced, same, young or larger, or restored, else 1, also if ROOT
has no folder of an archive; 2 if the command line is wrong.",
    after: "Examples:
  msrepack replace --below 2025 sds packed reports aside > log.txt
  msrepack replace --undo --below 2025 sds packed reports aside",
    arguments: &[
        UNDO,
        BELOW,
        SMALLER_FIRST,
        OLDER_THAN,
        TOUCH,
        INT24,
        ROOT,
        Argument::File("OUT", "The folder of the records"),
        Argument::File("REPORTS", "The folder of the reports"),
        Argument::File(
            "ASIDE",
            "The folder of the originals. It is made if it is missing; best on the file system of ROOT",
        ),
    ],
};

pub(crate) const FEED: About = About {
    about: "Repacks standard input to standard output while it comes",
    long_about: "Repacks standard input to standard output while it comes.

The records go to standard output, as `repack` writes them, while the samples come:
whenever msrepack waits for more input, all but the last samples have been written, at
most twice as many as one record of the length L can hold, and no later sample changes
what was written. The last records of a segment come when a record begins another
segment, or at the end of the input.

The report goes to the file REPORT at the end. It is made, or cut to nothing, before
anything is read, and it stands empty if standard input is refused, or a call fails:
then one line on standard error says why, and the records are only the first ones.

Status 0 if all was written, 1 after a fault, 2 if the command line is wrong.",
    after: "Example:
  slinktool -S XX_TEST:00BHZ.D -o - station:18000 |
    msrepack feed --no-int24 --length 4096 report.txt > packed.mseed",
    arguments: &[
        LENGTH,
        NO_INT24,
        TOLERANCE,
        STRICT,
        Argument::File("REPORT", "The file to write the report to, at the end"),
    ],
};

const INPUT: Argument = Argument::File("IN", "The file to read, or - for standard input");

const ROOT: Argument = Argument::File("ROOT", "The folder of the archive");

const RESUME: Argument = Argument::Flag(
    "resume",
    "Leave files alone that an earlier walk with this option did",
    "Leave files alone that an earlier walk with this option did: their records and their
report are whole, of this length, tolerance and choice of kinds, and made from an input
of the same size and time of change. For them one line is printed, which counts as one
of those done: `same PATH read N written M`",
);

const CHECKED: Argument = Argument::Flag(
    "check",
    "Hold records against their report and their file before they get their name",
    "Read records and report again before they get their names, hold one against the other,
as `check` does, and compare the records with the file itself, as `compare` does. If the
report does not show that they are the fewest, or if they are not the same data, neither
is kept, and `notshown PATH` or `differs PATH` is printed, or `changed PATH` if the file
was changed meanwhile: one of those refused",
);

const ONLY_SMALLER: Argument = Argument::Flag(
    "only-smaller",
    "Keep only what gets smaller in bytes",
    "Keep only what gets smaller: if the records of a file are not fewer bytes than the file
has, neither they nor the report are kept, nor what an earlier walk made of it, and
`larger PATH read N written M` is printed. It is neither done nor refused, and the last
line counts it: `files N skipped N refused N larger N`",
);

const KEEP_OLD: Argument = Argument::Flag(
    "keep-old",
    "Keep what an earlier walk made of a file that is refused now, or has fewer samples",
    "Keep what an earlier walk made of a file, records and report, if the file is refused now,
or has fewer samples than that report tells. Of one with fewer `shrunk PATH samples N M`
is printed, how many it had and has; it is one of those refused",
);

const DAYS_OLDER_THAN: Argument = Argument::Days(
    "0",
    "Only days whose file was not changed for so many days; 0: all",
    "Only days whose file was not changed for so many days, 0 to 4294967295; with 0 all. For
others `young PATH` is printed; the file is not opened, and what an earlier walk made of
it stays. With more than 0 days the last line counts them: `files N skipped N refused N
young N`",
);

const DRY_RUN_ASKED: Argument = Argument::Flag(
    "dry-run",
    "Tell what repacking would give, and write nothing; without OUT and REPORTS",
    "Tell what repacking would give, and write nothing: each file is packed, and
`would PATH read N written M` printed in place of `done`. OUT and REPORTS are not given,
nor --resume, --check, --only-smaller, --keep-old or --names",
);

const DAY_NAMES: Argument = Argument::Flag(
    "names",
    "Keep only files whose segments are of the channel and the day of their path",
    "Keep only files whose segments belong to their path: each is of its network, station,
location and channel, and one has a sample on its day. If a file has others, `misplaced
PATH NET.STA.LOC.CHAN YEAR,DAY` is printed, the name and the first day of the first
segment of another name, else of the first; it is one of those refused",
);

const NAMES: Argument = Argument::Flag(
    "names",
    "Tell files whose segments are not of the channel and the day of their path",
    "Tell files whose segments do not belong to their path: of a file that would be verified
or inplace, each is to be of its network, station, location and channel, and one to have
a sample on its day. Else `misplaced PATH NET.STA.LOC.CHAN YEAR,DAY` is printed, as by
`archive`; it is one of those refused",
);

const UNDO: Argument = Argument::Flag(
    "undo",
    "Put the originals back",
    "Put the originals that ASIDE has back into ROOT, and their records back into OUT, where
`archive --resume` finds all as it was",
);

const SMALLER_FIRST: Argument = Argument::Flag(
    "only-smaller",
    "Only days whose records are fewer bytes than their file",
    "Only days whose records are fewer bytes than their file. For others `larger PATH bytes N
M` is printed",
);

const OLDER_THAN: Argument = Argument::Days(
    "7",
    "Only days whose file was not changed for so many days; 0: all",
    "Only days whose file was not changed for so many days, 0 to 4294967295; with 0 all. Who
still writes to a file might go on in ASIDE",
);

const TOUCH: Argument = Argument::Flag(
    "touch",
    "Give the records the time of now",
    "Give the records the time of now as that of their last change, and not that of their
file, so that rsync or an index sees that they are new. An empty file PATH.touch-time in
ASIDE has that time too, by which --undo sees whether somebody has written since",
);

const INT24: Argument = Argument::Flag(
    "int24",
    "Also days whose records have 24-bit integers",
    "Also days whose records have 24-bit integers (encoding 2), which libmseed 2 and the tools
built on it cannot read. Without it they are refused",
);

const DAYS_KNOWN: Argument = Argument::Known(
    "Tell as known what FILE, lines of earlier runs, tells as refused",
    "Tell as known what FILE, lines of earlier runs, tells as refused: of what is refused by
a line `refused PATH: TEXT` that FILE has, as it was printed, the line is `known PATH:
TEXT`. It does not count as refused, nor for the status. FILE may be a whole log: its
other lines are passed over. It is no fault if something in FILE is not refused any more",
);

const KNOWN: Argument = Argument::Known(
    "Tell as known what FILE, lines of earlier runs, tells as refused",
    "Tell as known what FILE, lines of earlier runs, tells as refused: of what is refused by
a line `refused PATH: TEXT` that FILE has, as it was printed, the line is `known PATH:
TEXT`, and so it is of a day that is missing, if FILE has such a line of it. It does not
count as refused or missing, nor for the status. FILE may be a whole log: its other lines
are passed over. It is no fault if something in FILE is not refused any more",
);

const BYTES: Argument = Argument::Flag(
    "bytes",
    "Tell bytes read and written too",
    "Tell bytes too: the lines `done`, `would`, `same`, `larger`, `channel` and `files` go on
with ` bytes N M`, those read and those written; the last line sums up what is done or same",
);

const NO_INT24: Argument = Argument::Flag(
    "no-int24",
    "Pack without 24-bit integers: records that libmseed 2 and the tools built on it can read",
    "Pack without 24-bit integers (encoding 2): records that libmseed 2 and the tools built
on it can read. They are the fewest of the other four kinds, and the report says so, by
a line `kinds steim2 steim1 int16 int32` after that of the tolerance",
);

const JSON: Argument = Argument::Flag(
    "json",
    "Print each line as an object of JSON",
    "Print each line as an object of JSON (JSON Lines): times in ISO 8601, names without the
spaces after them, why each segment began, and, if the one before it has the same
name, how many microseconds after that one's next sample it begins",
);

const QUIET: Argument = Argument::Flag(
    "quiet",
    "Print only what is to be looked at, and the counts",
    "Print only what is to be looked at, and the counts: the lines `verified`, `inplace`,
`skipped` and `known` are left out. Counts and status are as without it",
);

const LINES_JSON: Argument = Argument::Flag(
    "json",
    "Print each line as an object of JSON",
    "Print each line as an object of JSON (JSON Lines): `what`, its first word, and `path`,
which is the name itself. What is refused, known or skipped has `text` too, what stands
after the path in words, and before it `side`, that is file, records or report, with
`offset`, `number`, `name` and `value` of a fault of a record, or `line` of one of the
report, as far as there are these; last `reason`, if one is known. The last
object has the counts",
);

const DAYS_QUIET: Argument = Argument::Flag(
    "quiet",
    "Print only what is to be looked at, the channels and the counts",
    "Print only what is to be looked at, the channels and the counts: the lines `done`, `would`,
`same`, `young`, `skipped` and `known` are left out. Counts and status are as without it",
);

const DAYS_JSON: Argument = Argument::Flag(
    "json",
    "Print each line as an object of JSON",
    "Print each line as an object of JSON (JSON Lines): `what`, its first word, and `path`,
which is the name itself; then its numbers by their names, `read` and `written`, with
--bytes `bytes_read` and `bytes_written`, of `shrunk` `samples_was` and `samples`. What
is refused, known or skipped has `text`, what stands after the path in words, and the
first two before it `side`, that is file, records or report, and `offset`, `number`,
`name` and `value` of a fault of a record, as far as there are these; last `reason`, if
the system gave one. A channel has `id`, and no `path`; the last object has the counts",
);

const STRICT: Argument = Argument::Flag(
    "strict",
    "Refuse a record whose last sample is not its reverse constant",
    "Refuse a record whose last sample is not its reverse constant, as `18 ReverseMismatch`.
Without it such records are read, and counted as mismatched",
);

const BELOW: Argument = Argument::Below(
    "Walk only this folder of the archive. May be repeated",
    "Walk only this folder of the archive, given by its path from ROOT, as 2020/XX/TEST/BHZ.D.
May be repeated, for folders of which none is another or stands below it: they are
walked in the order in which they are given. All paths are still counted from ROOT",
);

pub(crate) const LENGTH: Argument = Argument::Length(
    "Bytes of each record written: 256, 512, 1024, 2048, 4096, 8192, 16384, 32768 or 65536",
);

const DAY_LENGTH: Argument = Argument::DayLength(
    "Bytes of each record written: 256, 512, 1024, 2048, 4096, 8192, 16384, 32768 or 65536; or same",
    "Bytes of each record written: 256, 512, 1024, 2048, 4096, 8192, 16384, 32768 or 65536;
or `same`, for each file the length of its first record, if it is one of these, and
else 512",
);

const TOLERANCE: Argument = Argument::Tolerance(
    "Microseconds by which a record may be early or late and still join a segment: 1 to 1000000",
    "Microseconds by which a record may be early or late and still join a segment: 1 to
1000000. The expected time is counted from the start of the segment, so that small
errors do not add up",
);

/// A word is not UTF-8.
pub const NOT_UTF8: &str = "error: invalid UTF-8 was detected in one or more arguments\n";
