//! What a run is given beside its words.

use crate::odd_files::OddFiles;
use crate::stage::Stage;
use msr_devices::Behavior;

/// A device that moves all that it is given, and never fails.
const PLAIN: Behavior = Behavior {
    most: usize::MAX,
    interruptions: 0,
    fails_at: None,
};

/// What a run is given beside its words.
#[derive(Drop)]
pub struct Settings<'a> {
    /// `from=FILE`: what standard input has, else nothing.
    pub from: &'a str,
    /// `cut=COUNT`: standard input has only the first COUNT bytes of it.
    pub cut: usize,
    /// `into=FILE`: keeps what is printed.
    pub into: &'a str,
    /// `reads=FILE`: that file gets in a line, after the word `reads`, how many bytes standard output had at each read of
    /// standard input.
    pub reads: &'a str,
    /// `held=FILE`: another program has locked it, or a folder.
    pub held: &'a str,
    /// `reading=MOST@CALL`: standard input moves at most MOST bytes in a call, and fails at that call, from 0; `3`
    /// alone fails at call 3.
    pub reading: Behavior,
    /// `writing=MOST@CALL`: the same of standard output.
    pub writing: Behavior,
    /// `terminal`: standard error is one.
    pub is_terminal: bool,
    pub odd: OddFiles<'a>,
}

/// How a device behaves: with `100@3` it moves at most 100 bytes in a call, and fails at call 3, counted from 0. With
/// `3` it moves all bytes.
fn behavior(stage: &mut Stage<'_>, text: &str) -> Behavior {
    let mut behavior = PLAIN;
    let mut at = text;
    if let Some((most, last)) = text.split_once('@') {
        behavior.most = stage.count(most);
        at = last;
    }
    if !at.is_empty() {
        behavior.fails_at = Some(stage.count(at) as u64);
    }
    behavior
}

impl<'a> Settings<'a> {
    /// Settings of which nothing is odd.
    pub fn new(rt: &'a HostRuntime) -> Settings<'a> {
        Settings {
            from: "",
            cut: usize::MAX,
            into: "",
            reads: "",
            held: "",
            reading: PLAIN,
            writing: PLAIN,
            is_terminal: false,
            odd: OddFiles::new(rt),
        }
    }

    /// Adds a setting, written `NAME=VALUE`, or `terminal`.
    pub fn set(&mut self, stage: &mut Stage<'_>, setting: &'a str) {
        let (name, value) = setting.split_once('=').unwrap_or((setting, ""));
        match name {
            "from" => self.from = value,
            "cut" => self.cut = stage.count(value),
            "into" => self.into = value,
            "reads" => self.reads = value,
            "held" => self.held = value,
            "reading" => self.reading = behavior(stage, value),
            "writing" => self.writing = behavior(stage, value),
            "terminal" => self.is_terminal = true,
            _ => stage.note(self.odd.set(name, value)),
        }
    }
}
