// Parameters, constructors, functions, properties and type aliases, read from their messages and written as records, in the specification's order; each
// constructor and function closed by its default descriptor; one loop for the lists of a body. The definitions: schema's specs/Members.antt,
// declaration_rows' specs/Rows.antt, descriptors' specs/Defaults.antt; what the readers tell: schema's specs/told/MembersTold.antt.
#![tactic(auto)]

// `msg`, `context` and `out` are no struct: each call would make one anew, since the message changes, and each function take it apart.
// A message that is only read has to lie in the payload, the first half of `Stands`. All of it is for what finds types again by place (closed.rt).

mod signatures; // signatures.rt: the JVM signatures of members
mod pairs; // pairs.rt: two types of one declaration
mod parameters; // parameters.rt: value parameters
mod callables; // callables.rt: constructors and functions
mod properties; // properties.rt: properties
mod aliases; // aliases.rt: type aliases
mod closed; // closed.rt: constructors and functions, closed by their default descriptors
pub mod list; // list.rt: the lists of a body
