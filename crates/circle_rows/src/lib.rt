// The module that each record row leads to in the sort, without the rows that repeat an earlier one.
#![tactic(auto)]

pub mod inner;
