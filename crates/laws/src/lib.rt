// No code: the laws in proofs/ that several crates cite.
#![tactic(auto)]
