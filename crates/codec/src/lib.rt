// How a value stands in bytes from a place on: specs/ states what a codec promises, and proofs/ has its laws. There is no code.
#![tactic(auto)]
