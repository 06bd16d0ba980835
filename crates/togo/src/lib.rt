// The weight to go, the method behind the reader, and that it is the weight that the runs give. Definitions and theorems of
// specs/ only; there is no code to run.
#![tactic(auto)]

pub fn nothing() {}
