// Names: the records of the name table, and the texts that they build of the payload, the predefined list and d2. Names are parts of these,
// streamed by the readers and writers of characters.
#![tactic(auto)]

pub mod records; // records.rt: the records of the name table
pub mod name; // name.rt: names as parts of the payload, the predefined list or d2
pub mod encoded; // encoded.rt: bytes in UTF-8 and 16-bit units, read alike
pub mod stream; // stream.rt: names written
