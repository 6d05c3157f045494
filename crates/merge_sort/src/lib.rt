// A sort of modules by their keys: a group, and behind it a number or a name.
#![tactic(auto)]

pub mod inner;
