// Examples of the definitions, computed by the checker: see proofs/. No code.
#![tactic(auto)]
