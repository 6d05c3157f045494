// What the four rules read of a table, made once.
#![tactic(auto)]

pub mod inner;
