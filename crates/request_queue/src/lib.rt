// A list that grows in a slice, each member once, and what a place leads to along rows, listed as it is met.
#![tactic(auto)]

pub mod inner;
