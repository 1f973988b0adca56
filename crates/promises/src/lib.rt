// What is promised of every accepted answer, and a walk of a sheet by its counts: see specs/ and proofs/. No code.
#![tactic(auto)]
