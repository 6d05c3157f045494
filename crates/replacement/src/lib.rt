// Replaced modules: columns that are read through `newer`.
#![tactic(auto)]

pub mod inner;
