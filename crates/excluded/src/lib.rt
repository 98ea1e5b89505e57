// The programs that paper 01 says must be excluded, as functions: specs/ states that none of them meets the promise and proofs/ proves it. There is no code.
#![tactic(auto)]
