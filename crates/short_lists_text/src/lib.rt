// Every list of events of a given length that the machine accepts, and the text of them. What that is, is in specs/.
// This crate has no functions.
#![tactic(auto)]
