// The compiled table of a pattern (01, "The compiled table, exactly"): what it is, its words, and that it gives the weight that the text
// gives. Definitions and theorems of specs/ only; there is no code to run.
#![tactic(auto)]

pub fn nothing() {}
