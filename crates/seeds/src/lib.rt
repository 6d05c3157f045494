// Seeds: the test of lent ones, and marking those that are eligible.
#![tactic(auto)]

pub mod inner;
