// What a sequence of labels reads and marks: shared by the runs of a table and the derivations of a text.
// Definitions and laws of specs/ only; there is no code to run.
#![tactic(auto)]

pub fn nothing() {}
