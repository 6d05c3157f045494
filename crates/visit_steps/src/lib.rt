// The counters of a traversal, and the steps of a visit by value.
#![tactic(auto)]

pub mod inner;
