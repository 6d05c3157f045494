// The visit of a module in the expected order: over kind 0 records and normal targets.
#![tactic(auto)]

pub mod inner;
