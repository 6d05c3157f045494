// Which modules are sensitive.
#![tactic(auto)]

pub mod inner;
