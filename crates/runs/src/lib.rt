// What a table means: its runs on a line, and the weight of a set. Definitions and theorems of specs/ only; there is no code to run.
#![tactic(auto)]

pub fn nothing() {}
