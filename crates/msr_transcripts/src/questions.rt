//! Steps that print what is in files.

use crate::stage::Stage;
use std::fs;

/// `size FILE`: how many bytes it has.
fn size(stage: &mut Stage<'_>, path: &str) {
    let count = stage.read(path).len();
    stage.say(format!(in stage.alloc(); "{count} bytes\n"));
}

/// `has PATH`: whether there is something, also a link that leads nowhere.
fn has(stage: &mut Stage<'_>, path: &str) {
    stage.say_whether(fs::symlink_metadata(stage.rt, path).is_ok());
}

/// The part of a name before the number of a claim, which differs from run to run.
fn before_number(name: &str) -> Option<&str> {
    let (path, number) = name.strip_suffix(".part")?.rsplit_once('.')?;
    number.parse::<u64>().is_ok().then_some(path)
}

/// Adds a name in a folder. The number of a claim is told as `N`.
fn add_name(stage: &mut Stage<'_>, names: &mut Vec<String>, name: &str) {
    let told = match before_number(name) {
        Some(path) => format!(in stage.alloc(); "{path}.N.part"),
        None => name.to_string(stage.alloc()),
    };
    let told = stage.made(told);
    stage.note(names.push(told).is_ok());
}

/// Adds the names in a folder.
fn add_names(stage: &mut Stage<'_>, names: &mut Vec<String>, folder: &str) {
    let Ok(entries) = fs::read_dir(stage.rt, folder) else {
        return stage.note(false);
    };
    for entry in entries {
        match entry {
            Ok(entry) => add_name(stage, names, entry.file_name()),
            Err(_) => stage.note(false),
        }
    }
}

/// `names FOLDER`: the names in a folder, in the order of their bytes; a number before `.part` as `N`.
fn names(stage: &mut Stage<'_>, folder: &str) {
    let mut names = Vec::new(stage.alloc());
    add_names(stage, &mut names, folder);
    names.sort_unstable();
    for name in &names {
        stage.put(name.as_str().as_bytes());
        stage.put(b"\n");
    }
}

/// `same ONE OTHER`: whether two files have the same bytes.
fn same(stage: &mut Stage<'_>, one: &str, other: &str) {
    let (one, other) = (stage.read(one), stage.read(other));
    stage.say_whether(one.as_slice() == other.as_slice());
}

/// `prefix PART WHOLE`: whether the bytes of WHOLE begin with those of PART.
fn prefix(stage: &mut Stage<'_>, part: &str, whole: &str) {
    let (part, whole) = (stage.read(part), stage.read(whole));
    stage.say_whether(whole.as_slice().starts_with(part.as_slice()));
}

/// `show FILE`: the text of a file.
fn show(stage: &mut Stage<'_>, path: &str) {
    let bytes = stage.read(path);
    stage.tell(bytes.as_slice());
}

/// `ends FILE FIRST/LAST`: so many of its first bytes, and of its last.
fn ends(stage: &mut Stage<'_>, path: &str, counts: &str) {
    let (first, last) = stage.parts(counts, "/");
    let (first, last) = (stage.count(first), stage.count(last));
    let bytes = stage.read(path);
    let bytes = bytes.as_slice();
    stage.tell(&bytes[..first.min(bytes.len())]);
    stage.tell(&bytes[bytes.len() - last.min(bytes.len())..]);
}

/// `hex FILE FROM..TO`: the bytes of a file from a place to another, in hexadecimal.
fn hex(stage: &mut Stage<'_>, path: &str, range: &str) {
    let (from, to) = stage.parts(range, "..");
    let (from, to) = (stage.count(from), stage.count(to));
    let bytes = stage.read(path);
    for byte in bytes
        .as_slice()
        .get(from..to.min(bytes.len()))
        .unwrap_or(&[])
    {
        stage.say(format!(in stage.alloc(); "{byte:02x}"));
    }
    stage.put(b"\n");
}

/// The number of samples and the encoding of a record.
fn shape_of(record: &[u8]) -> (u16, u8) {
    if record.len() < 64 {
        return (0, 0);
    }
    (u16::from_be_bytes([record[30], record[31]]), record[52])
}

/// A line for records that are alike.
fn tell_shapes(stage: &mut Stage<'_>, shape: (u16, u8), times: usize) {
    let (samples, encoding) = shape;
    match times {
        0 => {}
        1 => stage.say(format!(in stage.alloc(); "{samples} {encoding}\n")),
        _ => stage.say(format!(in stage.alloc(); "{samples} {encoding} *{times}\n")),
    }
}

/// `shapes FILE LENGTH`: the number of samples and the encoding of each record of that length, equal neighbours in one
/// line, as `301 11 *600`.
fn shapes(stage: &mut Stage<'_>, path: &str, length: &str) {
    let bytes = stage.read(path);
    let length = stage.count(length).max(1);
    let mut shape = (0, 0);
    let mut times = 0usize;
    for record in bytes.as_slice().chunks(length) {
        let next = shape_of(record);
        if next != shape {
            tell_shapes(stage, shape, times);
            times = 0;
        }
        shape = next;
        times = times.saturating_add(1);
    }
    tell_shapes(stage, shape, times);
}

/// Numbers of which each is as far above the one before it as the second one is above the first.
#[derive(Clone, Copy)]
struct Rise {
    first: i64,
    /// How far they are apart, or 0 for a single number.
    by: i64,
    last: i64,
}

impl Rise {
    /// A single number.
    fn of(number: i64) -> Rise {
        Rise {
            first: number,
            by: 0,
            last: number,
        }
    }

    /// The numbers with one more, if it is as far from the last one.
    fn with(self, number: i64) -> Option<Rise> {
        let by = number.wrapping_sub(self.last);
        let goes_on = by != 0 && (self.by == 0 || self.by == by);
        goes_on.then_some(Rise {
            by,
            last: number,
            ..self
        })
    }

    fn tell(self, stage: &mut Stage<'_>) {
        let Rise { first, by, last } = self;
        if by == 0 {
            stage.say(format!(in stage.alloc(); "{first}\n"));
        } else {
            stage.say(format!(in stage.alloc(); "{first} by {by} to {last}\n"));
        }
    }
}

/// One number more after those of a rise: it is one of them, or they are told and it begins another rise.
fn next_rise(stage: &mut Stage<'_>, rise: Rise, number: i64) -> Rise {
    match rise.with(number) {
        Some(longer) => longer,
        None => {
            rise.tell(stage);
            Rise::of(number)
        }
    }
}

/// Tells numbers with a space between them, those that rise evenly in one line.
fn tell_rises(stage: &mut Stage<'_>, numbers: &str) {
    let mut words = numbers.split(' ');
    let first = words.next().unwrap_or("");
    let mut rise = Rise::of(stage.number(first));
    for word in words {
        let number = stage.number(word);
        rise = next_rise(stage, rise, number);
    }
    rise.tell(stage);
}

/// `rises FILE LINE`: the numbers after the first word of a line (from 1), those that rise evenly together, as
/// `0 by 721 to 8639743`.
fn rises(stage: &mut Stage<'_>, path: &str, line: &str) {
    let place = stage.count(line).saturating_sub(1);
    let text = stage.read_text(path);
    match text.as_str().lines().nth(place) {
        Some(line) => {
            if let Some((_, numbers)) = line.split_once(' ') {
                tell_rises(stage, numbers);
            }
        }
        None => stage.note(false),
    }
}

/// The question with these words.
pub fn ask(stage: &mut Stage<'_>, verb: &str, one: &str, other: &str) {
    match verb {
        "size" => size(stage, one),
        "has" => has(stage, one),
        "names" => names(stage, one),
        "same" => same(stage, one, other),
        "prefix" => prefix(stage, one, other),
        "show" => show(stage, one),
        "ends" => ends(stage, one, other),
        "hex" => hex(stage, one, other),
        "shapes" => shapes(stage, one, other),
        "rises" => rises(stage, one, other),
        _ => stage.note(false),
    }
}
