// The program: the input of one class on standard input, its line on standard output (document 01, "A whole line").
#![tactic(auto)]

use std::io;
use std::io::Write;

fn main(rt: HostRuntime) -> io::Result<()> {
    let mut area = [0u8; 262190];
    // No input is longer: counts of 4 bytes announce less than 2^40 bytes.
    let length = answer_lines::answer_input(&mut rt.stdin(), 1 << 40, &mut area);
    rt.stdout().write_all(&area[..length])
}
