// The visits of the module sort, with two counters lent to each.
#![tactic(auto)]

pub mod inner;
