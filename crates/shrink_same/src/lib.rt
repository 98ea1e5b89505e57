// What is shown of the smaller log; there is no code.
#![tactic(auto)]
