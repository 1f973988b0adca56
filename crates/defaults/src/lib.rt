// What a default descriptor tells, in the document's own sentences: see specs/ and proofs/. No code.
#![tactic(auto)]
