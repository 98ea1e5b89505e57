// However the bytes of a stream are cut into chunks, what they come to is the same: specs/ states it and proofs/ proves it. There is no code.
#![tactic(auto)]
