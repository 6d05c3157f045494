// A worklist: what holds after each taking, and that with all taken it is the least closed set. No code.
#![tactic(auto)]
