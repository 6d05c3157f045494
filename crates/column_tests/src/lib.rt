// The tests of a column's values and of how its rows agree with others, which the tests of sizes and values and `refusal` make of a project's columns.
#![tactic(auto)]

pub mod inner;
