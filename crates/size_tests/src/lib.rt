// Test 1 of a table: its lists' sizes.
#![tactic(auto)]

pub mod inner;
