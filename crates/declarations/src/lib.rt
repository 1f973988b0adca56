// The decoded bytes opened and their body written as rows. The definitions: specs/Payload.antt; what the answers tell: specs/told/PayloadTold.antt,
// specs/told/BodyTold.antt.
#![tactic(auto)]

pub mod payload; // payload.rt: the name table and the type table indexed
pub mod body; // body.rt: a body's rows
