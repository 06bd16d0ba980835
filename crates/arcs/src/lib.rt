// The arcs of a pattern, the method behind the compiler (01, "The pattern on the card"), and that they are what the text means.
// Definitions and theorems of specs/ only; there is no code to run.
#![tactic(auto)]

pub fn nothing() {}
