// What the pins of an encoder say of the shaft behind them: specs/ states it and proofs/ proves it. There is no code.
#![tactic(auto)]
