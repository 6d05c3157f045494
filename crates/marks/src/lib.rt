// Steps over one table: values looked up, owners of rows marked, marks added to a set.
#![tactic(auto)]

pub mod inner;
