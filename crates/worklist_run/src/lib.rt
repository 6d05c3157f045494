// A run of a worklist over a request graph, with its arrays; its list is the plan.
#![tactic(auto)]

pub mod inner;
