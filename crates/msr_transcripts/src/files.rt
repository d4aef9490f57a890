//! Steps with files, by their words.

use crate::inputs::{mismatched, two_segments, zeros};
use crate::stage::Stage;
use crate::{claims, questions, records, samples};
use std::fs;
use std::os::unix::fs::symlink;

/// `make NAME FILE`: `zeros` are 302 samples of 0 in a record of 4096 bytes, `mismatched` is one sample that is not its
/// reverse constant, `two` five records of 512 bytes and a gap, `nothing` no byte.
fn make(stage: &mut Stage<'_>, name: &str, path: &str) {
    let alloc = stage.alloc();
    let bytes = match name {
        "zeros" => zeros(alloc),
        "mismatched" => mismatched(alloc),
        "two" => two_segments(alloc),
        "nothing" => Ok(Vec::new(alloc)),
        _ => return stage.note(false),
    };
    match bytes {
        Ok(bytes) => stage.write(path, bytes.as_slice()),
        Err(_) => stage.note(false),
    }
}

/// The text, in which `\n` stands for a line's end.
fn lined(stage: &mut Stage<'_>, text: &str) -> String {
    stage.made(text.replace(stage.alloc(), "\\n", "\n"))
}

/// `text FILE TEXT`: writes a text; in it, and in that of `edit`, `\n` is a line's end.
fn text(stage: &mut Stage<'_>, path: &str, text: &str) {
    let text = lined(stage, text);
    stage.write(path, text.as_str().as_bytes());
}

/// `cut FILE COUNT`: keeps the first COUNT bytes.
fn cut(stage: &mut Stage<'_>, path: &str, count: &str) {
    let mut bytes = stage.read(path);
    bytes.truncate(stage.count(count));
    stage.write(path, bytes.as_slice());
}

/// `behead FILE`: removes the first byte.
fn behead(stage: &mut Stage<'_>, path: &str) {
    let bytes = stage.read(path);
    stage.write(path, bytes.as_slice().get(1..).unwrap_or(&[]));
}

/// `edit FILE OLD/NEW`: replaces a text wherever it stands, which is somewhere.
fn edit(stage: &mut Stage<'_>, path: &str, change: &str) {
    let change = lined(stage, change);
    let (old, new) = stage.parts(change.as_str(), "/");
    let text = stage.read_text(path);
    stage.note(text.contains(old));
    let edited = stage.made(text.replace(stage.alloc(), old, new));
    stage.write(path, edited.as_str().as_bytes());
}

/// `append FILE OTHER`: puts the bytes of OTHER after those of FILE.
fn append(stage: &mut Stage<'_>, path: &str, other: &str) {
    let mut bytes = stage.read(path);
    let more = stage.read(other);
    stage.note(bytes.extend_from_slice(more.as_slice()).is_ok());
    stage.write(path, bytes.as_slice());
}

/// `copy FROM TO`: copies a file.
fn copy(stage: &mut Stage<'_>, path: &str, to: &str) {
    let bytes = stage.read(path);
    stage.write(to, bytes.as_slice());
}

/// `many FOLDER COUNT`: makes so many empty files, with numbers for names.
fn many(stage: &mut Stage<'_>, folder: &str, count: &str) {
    for number in 0..stage.count(count) {
        let path = stage.made(format!(in stage.alloc(); "{folder}/{number}"));
        stage.write(path.as_str(), &[]);
    }
}

/// `soft TO FILE`: makes a symbolic link.
fn link(stage: &mut Stage<'_>, to: &str, path: &str) {
    stage.make_room(path);
    stage.note(stage.has_failed || symlink(stage.rt, to, path).is_ok());
}

/// `clear FOLDER ..`: removes folders with all that is in them; those that are missing are no matter.
fn clear(stage: &mut Stage<'_>, one: &str, others: &str) {
    fs::remove_dir_all(stage.rt, one).ok();
    for path in others.split_whitespace() {
        fs::remove_dir_all(stage.rt, path).ok();
    }
}

/// `folder FOLDER`, `hard TO FILE`: makes a folder, or a hard link in a folder that is there. Or another step that
/// makes something, or else a question.
fn making(stage: &mut Stage<'_>, verb: &str, one: &str, other: &str) {
    match verb {
        "make" => make(stage, one, other),
        "record" => records::write(stage, one, other),
        "samples" => samples::write(stage, one, other),
        "text" => text(stage, one, other),
        "many" => many(stage, one, other),
        "folder" => stage.note(fs::create_dir_all(stage.rt, one).is_ok()),
        "copy" => copy(stage, one, other),
        "hard" => stage.note(fs::hard_link(stage.rt, one, other).is_ok()),
        "soft" => link(stage, one, other),
        "claim" => claims::leave(stage, one, other),
        _ => questions::ask(stage, verb, one, other),
    }
}

/// `remove FILE`: removes a file. Or another step that changes or removes files, or else another one.
pub fn step(stage: &mut Stage<'_>, verb: &str, one: &str, other: &str) {
    match verb {
        "cut" => cut(stage, one, other),
        "behead" => behead(stage, one),
        "edit" => edit(stage, one, other),
        "set" => records::set(stage, one, other),
        "append" => append(stage, one, other),
        "remove" => stage.note(fs::remove_file(stage.rt, one).is_ok()),
        "clear" => clear(stage, one, other),
        _ => making(stage, verb, one, other),
    }
}
