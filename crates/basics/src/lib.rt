// Notions that every other crate leans on: what a test decides, a rule proved by a computed test, lists of lists.
// They are definitions and laws of specs/ only; there is no code to run.
#![tactic(auto)]

pub fn nothing() {}
