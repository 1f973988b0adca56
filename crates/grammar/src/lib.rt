// The JVM's method descriptor grammar, and that it cuts a text in one way only: see specs/ and proofs/. No code.
#![tactic(auto)]
