// T-12: the text of the transition system of short lists. What it is, is in specs/.
// This crate has no functions.
#![tactic(auto)]
