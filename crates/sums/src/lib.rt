// The sums that paper 01 marks with *, as one fact: specs/ states it and proofs/ proves it. There is no code.
#![tactic(auto)]
