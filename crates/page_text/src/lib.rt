// The page of an entry as bytes.
#![tactic(auto)]

pub mod inner;
