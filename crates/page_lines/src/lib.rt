// A line of the workshop page.
#![tactic(auto)]

pub mod inner;
