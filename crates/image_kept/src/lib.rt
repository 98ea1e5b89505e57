// Every state that records lead to has an image, for the stream, and every reading is below 2^64, for what is printed: proofs/ proves it. There
// is no code.
#![tactic(auto)]
