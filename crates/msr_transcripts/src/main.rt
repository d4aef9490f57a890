//! Runs of the program that a script asks for, over streams of memory and over the files of the folder that it is run
//! in. The script comes by standard input, a line for each step; what is printed is each line and what came of it.
//! Expected values are those of the file `stdout`, and were worked out apart from the program. README.md has the
//! steps.
#![tactic(auto)]

mod claims;
mod each;
mod files;
mod inputs;
mod names;
mod noted;
mod odd_files;
mod questions;
mod records;
mod runs;
mod samples;
mod settings;
mod stage;
mod steps;

use names::Names;
use stage::Stage;
use std::io;

fn main(rt: HostRuntime) -> io::Result<()> {
    let mut names = Names::new(rt.alloc());
    for line in rt.lines(rt.alloc()) {
        let line = line?;
        println!(&rt; "{line}")?;
        let mut stage = Stage {
            rt: &rt,
            has_failed: false,
        };
        steps::step(&mut stage, &mut names, line.as_str());
        if stage.has_failed {
            println!(&rt; "no such step, or a file that cannot be used")?;
        }
    }
    Ok(())
}
