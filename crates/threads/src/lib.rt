// The rows of each value of a column, threaded.
#![tactic(auto)]

pub mod inner;
