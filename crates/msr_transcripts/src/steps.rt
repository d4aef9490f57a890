//! One line of a script.

use crate::names::Names;
use crate::stage::Stage;
use crate::{each, files, runs};

/// `let NAME TEXT`: `{NAME}` stands for the text from here on, but in comments. Or a step with files.
fn named_step(stage: &mut Stage<'_>, names: &mut Names, line: &str) {
    let (verb, rest) = line.split_once(' ').unwrap_or((line, ""));
    let (one, other) = rest.split_once(' ').unwrap_or((rest, ""));
    if verb == "let" {
        names.add(stage, one, other);
    } else {
        files::step(stage, verb, one, other);
    }
}

/// What the line asks for: a run, `SETTINGS $ WORDS`, or one that is repeated; nothing, `# TEXT` or no text; or another
/// step.
pub fn step(stage: &mut Stage<'_>, names: &mut Names, line: &str) {
    if line.is_empty() || line.starts_with('#') {
        return;
    }
    let line = names.expanded(stage, line);
    let line = line.as_str();
    if let Some(repeated) = line.strip_prefix("each ") {
        each::step(stage, repeated);
    } else if line.contains('{') {
        stage.note(false);
    } else if line.contains('$') {
        runs::answer_to(stage, line).tell(stage);
    } else {
        named_step(stage, names, line);
    }
}
