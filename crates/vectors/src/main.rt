// Published examples and made cases, read by the lower crates. Each line of the input says what is run, and on what; what comes of it is written. README.md
// says what such a line holds, and what is written of it.
#![tactic(auto)]

use std::io;
use std::io::Read;

mod hex; // hex.rt: numbers, bytes and units in hex
mod of_encoding; // of_encoding.rt: d1's decoded
mod of_converter; // of_converter.rt: d1's converted both ways
mod of_wire; // of_wire.rt: messages cut into fields
mod of_names; // of_names.rt: names looked up

// One line: its first word says what is run on the rest of it.
fn run_line(rt: &impl Print, line: &[u8]) -> io::Result<()> {
    if let Some(case) = line.strip_prefix(b"decode|") {
        return of_encoding::show(rt, case);
    }
    if let Some(case) = line.strip_prefix(b"convert|") {
        return of_converter::show_case(rt, case);
    }
    if let Some(case) = line.strip_prefix(b"name|") {
        return of_names::show(rt, case);
    }
    if line.starts_with(b"limits of decode") {
        return of_encoding::show_limits(rt);
    }
    if line.starts_with(b"limits of convert") {
        return of_converter::show_limits(rt);
    }
    if line.starts_with(b"test of convert") {
        return of_converter::run_test(rt);
    }
    of_wire::show_line(rt, line)
}

fn main(rt: HostRuntime) -> io::Result<()> {
    let mut input = Vec::new(rt.alloc());
    rt.stdin().take(65536).read_to_end(&mut input)?;
    for line in input.split(|byte| *byte == b'\n') {
        if !line.is_empty() {
            run_line(&rt, line)?;
        }
    }
    Ok(())
}
