// What is said of a plan that was made elsewhere, of a tested table.
#![tactic(auto)]

pub mod inner;
