// A register's bits: specs/ says what they are. There is no code: a truth value is cast to the bit that a register shows of it.
#![tactic(auto)]
