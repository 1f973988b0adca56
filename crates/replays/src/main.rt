// Reads the files that its arguments name, whose inputs have areas of given sizes, then the inputs on standard input, and writes a line for each.
#![tactic(auto)]

use std::{env, io};

mod areas; // areas.rt: files, every byte of the areas shown
mod lines; // lines.rt: standard input, the lines of sheet_reader

fn main(rt: HostRuntime) -> io::Result<()> {
    for name in env::args(&rt)?.skip(1) {
        areas::replay_named(&rt, name.as_str())?;
    }
    lines::replay_all(&rt, &mut rt.stdin())
}
