// What a place reaches along the rows of two columns, and strong connection.
#![tactic(auto)]

pub mod inner;
