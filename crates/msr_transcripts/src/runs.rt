//! Runs of msrepack over streams of memory.
ghost use Rattle.msr_devices.specs.Device.{CanCountCall};

use crate::noted::{NotedSink, NotedSource};
use crate::settings::Settings;
use crate::stage::Stage;
use msr_arguments::read_words;
use msr_command::{SystemFiles, run};
use msr_devices::{Sink, Source, TestSink, TestSource};
use msr_folders::LockFile;
use msr_options::Errors;
use std::alloc::Global;
use std::cell::Cell;
use std::fs::File;
use std::io::Write;
use std::rt::Files;
use std::time::Clock;

/// What came of a run: what it printed, unless a file keeps that, its complaint, and its status.
#[derive(Drop, PartialEq)]
pub struct Answer {
    printed: Vec<u8>,
    complaint: Vec<u8>,
    status: u8,
}

impl Answer {
    /// Prints it, with the complaint marked.
    pub fn tell(&self, stage: &mut Stage<'_>) {
        stage.tell(self.printed.as_slice());
        if !self.complaint.is_empty() {
            stage.put(b"! ");
            stage.tell(self.complaint.as_slice());
        }
        let status = self.status;
        stage.say(format!(in stage.alloc(); "status {status}\n"));
    }
}

/// The bytes of standard input: those of the file that is named, as many as come.
fn given(stage: &mut Stage<'_>, settings: &Settings<'_>) -> Vec<u8> {
    if settings.from.is_empty() {
        return Vec::new(stage.alloc());
    }
    let mut bytes = stage.read(settings.from);
    bytes.truncate(settings.cut);
    bytes
}

/// The file or folder, locked as by another program until it is closed, if there is one with that path.
fn held(stage: &mut Stage<'_>, path: &str) -> Option<File> {
    if path.is_empty() {
        return None;
    }
    let file = File::open(stage.rt, path).ok();
    match &file {
        Some(file) => stage.note(file.try_lock().is_ok()),
        None => stage.note(false),
    }
    file
}

/// The status of msrepack with these words. It is generic over the files, since a call that names them hides a lifetime.
fn status_with<R: Files + Clock, I: Source, O: Sink, E: Write>(
    rt: &R,
    alloc: Global,
    words: &[&str],
    input: &mut I,
    output: &mut O,
    errors: &mut Errors<E>,
) -> u8
where
    R::File: LockFile,
    requires input { CanCountCall (I.device input.old) }
    requires output { CanCountCall (O.device output.old) }
{
    let asked = read_words(alloc, words);
    run(
        &mut SystemFiles::new(rt),
        alloc,
        asked,
        input,
        output,
        errors,
    )
}

/// What came of msrepack with these words, of which the first is its name.
fn answer_with(stage: &mut Stage<'_>, settings: &Settings<'_>, words: &[&str]) -> Answer {
    let alloc = stage.alloc();
    let _held = held(stage, settings.held);
    let input = given(stage, settings);
    let written = Cell::new(0);
    let source = TestSource::new(input.as_slice(), settings.reading);
    let mut source = NotedSource::new(alloc, source, &written);
    let mut sink = NotedSink::new(TestSink::new(Vec::new(alloc), settings.writing), &written);
    let mut errors = Errors {
        to: Vec::new(alloc),
        is_terminal: settings.is_terminal,
    };
    let mut status = 0;
    if !stage.has_failed {
        status = status_with(
            &settings.odd,
            alloc,
            words,
            &mut source,
            &mut sink,
            &mut errors,
        );
    }
    let mut printed = Vec::new(alloc);
    if settings.into.is_empty() {
        stage.note(printed.extend_from_slice(sink.bytes()).is_ok());
    } else {
        stage.write(settings.into, sink.bytes());
    }
    if !settings.reads.is_empty() {
        let line = stage.made(source.line(alloc));
        stage.write(settings.reads, line.as_str().as_bytes());
    }
    Answer {
        printed,
        complaint: errors.to,
        status,
    }
}

/// `SETTINGS $ WORDS`: a run with these words: what it printed, its complaint after `! `, then `status N`.
pub fn answer_to(stage: &mut Stage<'_>, line: &str) -> Answer {
    let (before, after) = stage.parts(line, "$");
    let mut settings = Settings::new(stage.rt);
    for setting in before.split_whitespace() {
        settings.set(stage, setting);
    }
    let mut words = Vec::new(stage.alloc());
    stage.note(words.push("msrepack").is_ok());
    for word in after.split_whitespace() {
        stage.note(words.push(word).is_ok());
    }
    answer_with(stage, &settings, words.as_slice())
}
