// The wraps with a plan's modules read as 2, and the hosts of modules by the noted ones: what a load with a plan reads, and what its steps name.
#![tactic(auto)]

pub mod inner;
