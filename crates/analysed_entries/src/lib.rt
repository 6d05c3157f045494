// The analysed entries of a table.
#![tactic(auto)]

pub mod inner;
