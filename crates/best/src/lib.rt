// The best reading as one sum: the theory behind the reader. Definitions and theorems of specs/ only; there is no code to run.
#![tactic(auto)]

pub fn nothing() {}
