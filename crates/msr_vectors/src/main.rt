//! Rows of tables, one a line of standard input: each is printed, and below it what the libraries answer, which the file
//! `stdout` has from outside. README.md has the rows.
#![tactic(auto)]

mod areas;
mod filling;
mod fitting;
mod growing;
mod inputs;
mod line;
mod lists;
mod packing;
mod records;
mod reports;
mod rows;
mod times;
mod tools;

use std::io;

fn main(rt: HostRuntime) -> io::Result<()> {
    for text in rt.lines(rt.alloc()) {
        rows::tell(&rt, text?.as_str())?;
    }
    Ok(())
}
