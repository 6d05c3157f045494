// The marks of a table's sensitive and of its eligible modules, made once.
#![tactic(auto)]

pub mod inner;
