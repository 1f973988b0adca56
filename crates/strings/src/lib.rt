// Which strings of d2 a reading falls to, and that no other matters to it: see specs/ and proofs/. No code.
#![tactic(auto)]
