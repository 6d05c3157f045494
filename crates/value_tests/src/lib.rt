// Tests 2 to 4 of a table: its columns' values, and how its rows rise and agree with each other.
#![tactic(auto)]

pub mod agree;
pub mod inner;
