// What C calls, on numbers and byte slices: a file for each group of calls. `include/rivandoze.h` declares them.
#![tactic(auto)]

mod judges;
mod logs;
mod rates;
