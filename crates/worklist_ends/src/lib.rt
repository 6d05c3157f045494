// The ends of a worklist: the eligible seeds are listed first, and the last list is marked and written.
#![tactic(auto)]

pub mod inner;
