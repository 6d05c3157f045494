// The page of an entry of a table.
#![tactic(auto)]

pub mod inner;
