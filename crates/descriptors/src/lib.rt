// The parts of types at their positions, and default descriptors. The definitions: erasure's specs/Erasure.antt and specs/Defaults.antt.
#![tactic(auto)]

pub mod slots; // slots.rt: where the types of functions and parameters stand
mod erased; // erased.rt: the part of a type at its position
pub mod defaults; // defaults.rt: default descriptors
