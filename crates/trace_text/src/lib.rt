// A run step by step, as text. What that is, is in specs/.
// This crate has no functions: trace_list has the code.
#![tactic(auto)]
