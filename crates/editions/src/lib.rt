// What the editions of the log's format have in common, and what each has to itself: specs/ states it and proofs/ proves it. There is no code.
#![tactic(auto)]
