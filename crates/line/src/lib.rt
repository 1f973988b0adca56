// The program's input, read from bytes that may come in pieces, and the line that it prints.
#![tactic(auto)]

pub mod input; // input.rt: the input
pub mod output; // output.rt: the line
pub mod stream; // stream.rt: the input read from a reader
