// T-13: how many events can still be accepted where nobody issues checks, timeouts, crashes or recoveries. What is meant and claimed is in specs/.
// This crate has no functions: `rest_list` holds the code.
#![tactic(auto)]
