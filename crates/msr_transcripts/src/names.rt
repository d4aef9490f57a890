//! Names that a script gives to texts.

use crate::stage::Stage;
use std::alloc::Global;

/// The texts that a script gave names, each with its name in braces.
#[derive(Drop)]
pub struct Names {
    rows: Vec<(String, String)>,
}

impl Names {
    /// No names.
    pub fn new(alloc: Global) -> Names {
        Names {
            rows: Vec::new(alloc),
        }
    }

    /// Gives a text a name, also one that another text had.
    pub fn add(&mut self, stage: &mut Stage<'_>, name: &str, text: &str) {
        let mark = stage.made(format!(in stage.alloc(); "{{{name}}}"));
        let text = stage.made(text.to_string(stage.alloc()));
        stage.note(self.rows.push((mark, text)).is_ok());
    }

    /// The line with each name in braces replaced by its text.
    pub fn expanded(&self, stage: &mut Stage<'_>, line: &str) -> String {
        let mut expanded = stage.made(line.to_string(stage.alloc()));
        for (mark, text) in self.rows.iter().rev() {
            let next = expanded.replace(stage.alloc(), mark.as_str(), text.as_str());
            expanded = stage.made(next);
        }
        expanded
    }
}
